ghost use Rattle.automata.specs.Shown.{sign_bytes};
ghost use Rattle.tables.specs.Shown.{shown};
ghost use Rattle.views.specs.Accepted.{accepted};
ghost use Rattle.views.specs.TableViews.{backward_table_model};

use crate::colouring::Colouring;
use crate::table_machine::{next_state, value_at};
use automata::signs::Signs;
use kinds::kind::Kind;
use machines::machine::Machine;
use tables::table::Table;

// A table as a machine that reads words backward: its state has a code for each state of the table,
// the value that the letters read so far give from there, the last of them first.
#[derive_where(Clone, Copy)]
pub struct BackwardTable<'a, K> {
    pub table: &'a Table<K>,
}

impl<'a, K: Kind> Machine for BackwardTable<'a, K> {
    type State = Colouring;

    type Kind = K;

    ghost meaning = { λ m. backward_table_model K.Kind.model (sign_bytes m.table.now.grid.signs) (accepted m.table.now.grid.signs) (shown m.table.now.grid) };

    fn signs(&self) -> Signs {
        self.table.grid().signs()
    }

    fn start(&self) -> Colouring {
        let grid = self.table.grid();
        Colouring::of::<K, _>(grid.state_count(), |p| value_at::<K>(grid, p))
    }

    fn step(&self, state: &Colouring, letter: usize) -> Colouring {
        let grid = self.table.grid();
        // as in the other machines: a function for these lines would be as long
        if letter >= grid.signs().len() {
            return *state;
        }
        Colouring::of::<K, _>(grid.state_count(), |p| {
            state.code::<K>(next_state(grid, p, letter))
        })
    }

    fn value(&self, state: &Colouring) -> u8 {
        K::clean(state.code::<K>(0))
    }
}
