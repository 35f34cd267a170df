ghost use Rattle.std.specs.Prelude.{◌≡◌, ◌≤◌, length};
ghost use Rattle.automata.specs.Held.{Within, CodesPast, Linked};

use crate::row::Row;
use crate::sets::StateSet;
use crate::signs::Signs;

pub mod editing;
pub mod reading;

// A nondeterministic automaton with at most 32 states, each of which has a code. Nothing lies past
// the counts, so two automata that hold the same are equal.
#[derive(Clone, Copy)]
pub struct Automaton {
    signs: Signs,
    // no heap: the rows of the states that there are stand first in 32 places
    count: usize,
    rows: [Row; 32],
    entry_set: StateSet,
    ghost few: { count ≤ 32 },
    ghost wide: { length rows ≡ 32 },
    ghost blank: { CodesPast rows count },
    ghost linked: { Linked rows count signs.count },
    ghost entered: { Within entry_set count },
}
