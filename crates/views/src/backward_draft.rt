ghost use Rattle.std.specs.Prelude.{◌≡◌};
ghost use Rattle.automata.specs.Shown.{shown};
ghost use Rattle.drafts.specs.Drawn.{drawn};
ghost use Rattle.views.specs.Accepted.{accepted};
ghost use Rattle.views.specs.DraftViews.{ends_joined, backward_draft_model};

use crate::colouring::Colouring;
use crate::forward_draft::code_at;
use crate::joins::join_over;
use automata::automaton::Automaton;
use automata::signs::Signs;
use drafts::draft::Draft;
use kinds::kind::Kind;
use machines::machine::Machine;

// The join of the codes of the ends of all arrows of the letter from one state.
fn join_ends<K: Kind>(
    automaton: &Automaton,
    colouring: &Colouring,
    letter: usize,
    from: usize,
) -> u8
    ensures { result ≡ ends_joined K.model (shown automaton.now) colouring.now letter from }
{
    let ends = automaton.ends(from, letter);
    join_over::<K, _, _>(
        // there are no more anyway; where this is said, the compiler need not compare each with 32
        automaton.state_count().min(32),
        |q| ends.has(q),
        |q| colouring.code::<K>(q),
    )
}

// A draft as a machine that reads words backward: its state has a code for each state of the draft,
// the value that the letters read so far give from there, the last of them first.
#[derive_where(Clone, Copy)]
pub struct BackwardDraft<'a, K> {
    pub draft: &'a Draft<K>,
}

impl<'a, K: Kind> Machine for BackwardDraft<'a, K> {
    type State = Colouring;

    type Kind = K;

    ghost meaning = { λ m. backward_draft_model K.Kind.model (drawn m.draft.now) (accepted m.draft.now.automaton.signs) };

    fn signs(&self) -> Signs {
        self.draft.automaton().sign_list()
    }

    fn start(&self) -> Colouring {
        let automaton = self.draft.automaton();
        Colouring::of::<K, _>(automaton.state_count(), |p| code_at::<K>(automaton, p))
    }

    fn step(&self, state: &Colouring, letter: usize) -> Colouring {
        let automaton = self.draft.automaton();
        // as in the other machines: a function for these lines would be as long
        if letter >= automaton.sign_list().len() {
            return *state;
        }
        Colouring::of::<K, _>(automaton.state_count(), |p| {
            join_ends::<K>(automaton, state, letter, p)
        })
    }

    fn value(&self, state: &Colouring) -> u8 {
        let automaton = self.draft.automaton();
        join_over::<K, _, _>(
            automaton.state_count(),
            |p| automaton.is_entry(p),
            |p| state.code::<K>(p),
        )
    }
}
