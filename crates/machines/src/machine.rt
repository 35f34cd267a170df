ghost use Rattle.std.specs.Prelude.{◌≡◌};
ghost use Rattle.automata.specs.Shown.{sign_bytes};
ghost use Rattle.machines.specs.Models.{MachineModel};

use automata::signs::Signs;
use kinds::kind::Kind;
use rolls::state::State;

// A deterministic machine whose states have values: a start, a step for each letter, and a value for
// each state. Each machine names its own type of states and its own kind.
//
// By the ghost member `meaning` an implementation says what these are as functions of the machine. The
// model's laws are all that it owes: its signs are acceptable, a letter at or past their number leaves
// the state as it is, and each value is admitted.
pub trait Machine {
    type State: State;

    type Kind: Kind;

    ghost meaning: { Self → MachineModel Self.State };

    fn signs(&self) -> Signs
        ensures signs { sign_bytes result ≡ (meaning self.now).signs }
        ensures kind { (meaning self.now).kind ≡ Self.Kind.Kind.model };

    fn start(&self) -> Self::State
        ensures { result ≡ (meaning self.now).start };

    fn step(&self, state: &Self::State, letter: usize) -> Self::State
        ensures { result ≡ (meaning self.now).step state.now letter };

    fn value(&self, state: &Self::State) -> u8
        ensures { result ≡ (meaning self.now).value state.now };
}
