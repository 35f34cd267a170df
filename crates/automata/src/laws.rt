ghost use Rattle.std.specs.Prelude.{◌≡◌};
ghost use Rattle.automata.specs.declared.automaton.Automaton.{Automaton};
ghost use Rattle.automata.specs.Shown.{shown};

// Two automata that hold the same signs, values, entry states and arrows are equal.
pub fn held_laws()
    ensures { (d e : Automaton) → shown d ≡ shown e → d ≡ e }
{}
