ghost use Rattle.std.specs.Prelude.{◌≡◌, not, ◌&&◌, [], ◌∷◌, if◌then◌else◌};
ghost use Rattle.drafts.specs.declared.calls.Call.TheVariants.{Grow, Link, Unlink, Enter, Leave, Rate};
ghost use Rattle.drafts.specs.declared.faults.CallFault.TheVariants.{NoState, NoLetter, Present, Absent};
ghost use Rattle.automata.specs.Tests.{first_no};
ghost use Rattle.automata.specs.Drafts.{size, is_state, is_letter};
ghost use Rattle.automata.specs.Shown.{shown};
ghost use Rattle.drafts.specs.Calls.{unless};
ghost use Rattle.drafts.specs.Drawn.{drawn, Made};

use crate::draft::Draft;
use crate::faults::CallFault;
use automata::arrow::Arrow;
use automata::automaton::Automaton;
use kinds::kind::Kind;

// Whether a state exists.
fn check_state(automaton: &Automaton, state: usize) -> Result<(), CallFault>
    ensures { result ≡ unless (first_no ((is_state (shown automaton.now) state, NoState) ∷ [])) tt }
{
    if state < automaton.state_count() {
        Ok(())
    } else {
        Err(CallFault::NoState)
    }
}

// Whether the states and the letter of an arrow exist, in this order.
fn check_arrow(automaton: &Automaton, arrow: Arrow) -> Result<(), CallFault>
    ensures { result ≡ unless (first_no ((is_state (shown automaton.now) arrow.from && is_state (shown automaton.now) arrow.to, NoState) ∷ (is_letter (shown automaton.now) arrow.letter, NoLetter) ∷ [])) tt }
{
    check_state(automaton, arrow.from)?;
    check_state(automaton, arrow.to)?;
    if arrow.letter < automaton.signs().len() {
        Ok(())
    } else {
        Err(CallFault::NoLetter)
    }
}

// What is to be added may not be there yet, and what is to be removed has to be there.
fn check_change(there: bool, on: bool) -> Result<(), CallFault>
    ensures { result ≡ unless (first_no ((if on then not there else there, if on then Present else Absent) ∷ [])) tt }
{
    match (there, on) {
        (true, true) => Err(CallFault::Present),
        (false, false) => Err(CallFault::Absent),
        _ => Ok(()),
    }
}

impl<K: Kind> Draft<K> {
    // Adds a state with this value, and answers its number.
    pub fn grow(&mut self, value: u8) -> Result<usize, CallFault>
        ensures { Made K.model (Grow value) (size (drawn self.old)) self.old self.new result }
    {
        if !K::admits(value) {
            return Err(CallFault::NotAdmitted);
        }
        let count = self.automaton.state_count();
        if count >= 32 {
            return Err(CallFault::Full);
        }
        self.automaton.add_state(value);
        Ok(count)
    }

    // Adds an arrow, where `on`, or else removes it.
    fn change_arrow(&mut self, arrow: Arrow, on: bool) -> Result<(), CallFault>
        ensures { Made K.model (if on then Link arrow else Unlink arrow) tt self.old self.new result }
    {
        check_arrow(&self.automaton, arrow)?;
        check_change(self.automaton.has_arrow(arrow), on)?;
        self.automaton.set_arrow(arrow, on);
        Ok(())
    }

    // Adds an arrow.
    pub fn link(&mut self, arrow: Arrow) -> Result<(), CallFault>
        ensures { Made K.model (Link arrow) tt self.old self.new result }
    {
        self.change_arrow(arrow, true)
    }

    // Removes an arrow.
    pub fn unlink(&mut self, arrow: Arrow) -> Result<(), CallFault>
        ensures { Made K.model (Unlink arrow) tt self.old self.new result }
    {
        self.change_arrow(arrow, false)
    }

    // Makes a state an entry state, where `on`, or else ends that. Like `change_arrow`, by other methods of the automaton:
    // one function for both would take three closures.
    fn change_entry(&mut self, state: usize, on: bool) -> Result<(), CallFault>
        ensures { Made K.model (if on then Enter state else Leave state) tt self.old self.new result }
    {
        check_state(&self.automaton, state)?;
        check_change(self.automaton.is_entry(state), on)?;
        self.automaton.set_entry(state, on);
        Ok(())
    }

    // Makes a state an entry state.
    pub fn enter(&mut self, state: usize) -> Result<(), CallFault>
        ensures { Made K.model (Enter state) tt self.old self.new result }
    {
        self.change_entry(state, true)
    }

    // Ends that a state is an entry state.
    pub fn leave(&mut self, state: usize) -> Result<(), CallFault>
        ensures { Made K.model (Leave state) tt self.old self.new result }
    {
        self.change_entry(state, false)
    }

    // Replaces the value of a state.
    pub fn rate(&mut self, state: usize, value: u8) -> Result<(), CallFault>
        ensures { Made K.model (Rate state value) tt self.old self.new result }
    {
        check_state(&self.automaton, state)?;
        if !K::admits(value) {
            return Err(CallFault::NotAdmitted);
        }
        self.automaton.set_code(state, value);
        Ok(())
    }
}
