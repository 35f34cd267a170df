ghost use Rattle.std.specs.Prelude.{◌≡◌};
ghost use Rattle.automata.specs.Drafts.{size};
ghost use Rattle.automata.specs.Shown.{shown};
ghost use Rattle.drafts.specs.Drawn.{drawn};
ghost use Rattle.views.specs.Accepted.{accepted};
ghost use Rattle.views.specs.DraftViews.{code_of_state, leads_into, forward_draft_model};
ghost use Rattle.views.specs.Those.{those};

use crate::joins::join_over;
use crate::states::Reached;
use automata::automaton::Automaton;
use automata::sets::StateSet;
use automata::signs::Signs;
use drafts::draft::Draft;
use kinds::kind::Kind;
use machines::machine::Machine;

// The value of a state of an automaton; what is no state has none. `value_at` says it of a grid: a trait for both would be longer.
pub fn code_at<K: Kind>(automaton: &Automaton, state: usize) -> u8
    ensures { result ≡ code_of_state K.model (shown automaton.now) state }
{
    automaton.code(state).unwrap_or(K::none())
}

// The set of the ends of all arrows of the letter from the states of the automaton that are in the set.
fn ends_set(automaton: &Automaton, set: StateSet, letter: usize) -> StateSet
    ensures { result ≡ those (size (shown automaton.now)) (leads_into (shown automaton.now) set letter) }
{
    (0..automaton.state_count())
        .filter(|p| set.has(*p))
        .map(|p| automaton.ends(p, letter))
        .fold(StateSet::empty(), |all, ends| all.union(ends))
}

// A draft as a machine that reads words forward: its state is the set of the states that the word
// reaches. Members that are no states of the draft count for nothing.
#[derive_where(Clone, Copy)]
pub struct ForwardDraft<'a, K> {
    pub draft: &'a Draft<K>,
}

impl<'a, K: Kind> Machine for ForwardDraft<'a, K> {
    type State = Reached;

    type Kind = K;

    ghost meaning = { λ m. forward_draft_model K.Kind.model (drawn m.draft.now) (accepted m.draft.now.automaton.signs) };

    fn signs(&self) -> Signs {
        self.draft.automaton().sign_list()
    }

    fn start(&self) -> Reached {
        let automaton = self.draft.automaton();
        Reached {
            set: automaton.entries(),
        }
    }

    fn step(&self, state: &Reached, letter: usize) -> Reached {
        let automaton = self.draft.automaton();
        // as in the other machines: a function for these lines would be as long
        if letter >= automaton.sign_list().len() {
            return *state;
        }
        Reached {
            set: ends_set(automaton, state.set, letter),
        }
    }

    fn value(&self, state: &Reached) -> u8 {
        let automaton = self.draft.automaton();
        join_over::<K, _, _>(
            automaton.state_count(),
            |p| state.set.has(p),
            |p| code_at::<K>(automaton, p),
        )
    }
}
