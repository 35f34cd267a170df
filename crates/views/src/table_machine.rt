ghost use Rattle.std.specs.Prelude.{◌≡◌, length};
ghost use Rattle.automata.specs.Shown.{sign_bytes};
ghost use Rattle.machines.specs.Tables.{table_step};
ghost use Rattle.tables.specs.Shown.{shown};
ghost use Rattle.views.specs.Accepted.{accepted};
ghost use Rattle.views.specs.TableViews.{value_of_state, table_view};

use automata::signs::Signs;
use kinds::kind::Kind;
use machines::machine::Machine;
use tables::grid::Grid;
use tables::table::Table;

// The value of a state of a grid; what is no state has none. The state stays beside its grid: a struct of both would be
// made anew at each step.
pub fn value_at<K: Kind>(grid: &Grid, state: usize) -> u8
    ensures { result ≡ value_of_state K.model (shown grid.now) state }
{
    grid.value(state).unwrap_or(K::none())
}

// The state to which a letter leads; from what is no state, and by what is no letter, no step is made.
pub fn next_state(grid: &Grid, state: usize, letter: usize) -> usize
    ensures { result ≡ table_step (length (sign_bytes grid.now.signs)) (shown grid.now) state letter }
{
    grid.next(state, letter).unwrap_or(state)
}

// A table as a machine: from state 0 by its cells. What is no state stays where it is and has the
// value none, and so has a state whose value is not admitted.
#[derive_where(Clone, Copy)]
pub struct TableMachine<'a, K> {
    pub table: &'a Table<K>,
}

impl<'a, K: Kind> Machine for TableMachine<'a, K> {
    type State = usize;

    type Kind = K;

    ghost meaning = { λ m. table_view K.Kind.model (sign_bytes m.table.now.grid.signs) (accepted m.table.now.grid.signs) (shown m.table.now.grid) };

    fn signs(&self) -> Signs {
        self.table.grid().signs()
    }

    fn start(&self) -> usize {
        0
    }

    fn step(&self, state: &usize, letter: usize) -> usize {
        next_state(self.table.grid(), *state, letter)
    }

    fn value(&self, state: &usize) -> u8 {
        K::clean(value_at::<K>(self.table.grid(), *state))
    }
}
