// A machine written outside the library: it counts letters up to a limit, however large.
ghost use Rattle.machine_checks.specs.Counters.{counter};

use automata::signs::Signs;
use kinds::yes_no::Y;
use machines::machine::Machine;

#[derive(Clone, Copy)]
pub struct Counter {
    pub signs: Signs,
    pub limit: u64,
}

impl Machine for Counter {
    type State = u64;

    type Kind = Y;

    ghost meaning = { λ c. counter c.signs c.limit };

    fn signs(&self) -> Signs {
        self.signs
    }

    fn start(&self) -> u64 {
        0
    }

    fn step(&self, state: &u64, letter: usize) -> u64 {
        if letter < self.signs.len() && *state < self.limit {
            *state + 1
        } else {
            *state
        }
    }

    fn value(&self, state: &u64) -> u8 {
        // 0 or 1: `u8::try_from` would add a refusal that cannot come
        (*state % 2) as u8
    }
}
