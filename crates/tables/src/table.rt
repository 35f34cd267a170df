ghost use Rattle.std.specs.Prelude.{◌≡◌};
ghost use Rattle.tables.specs.Shown.{Blank};

use crate::grid::Grid;
use automata::signs::Signs;
use kinds::kind::Kind;
use std::marker::PhantomData;

// A table: a deterministic automaton with values of the kind K.
#[derive_where(Clone, Copy)]
pub struct Table<K> {
    grid: Grid,
    kind: PhantomData<K>,
}

impl<K: Kind> Table<K> {
    // One state with no value, which leads to itself.
    pub fn blank(signs: Signs) -> Table<K>
        ensures { Blank signs K.model.none result.grid }
    {
        Table::of(Grid::blank(signs, K::none()))
    }

    // These cells as a table of the kind K.
    pub fn of(grid: Grid) -> Table<K>
        ensures { result.grid ≡ grid }
    {
        Table {
            grid,
            kind: PhantomData,
        }
    }

    // What the table holds.
    pub fn grid(&self) -> &Grid
        ensures { result.now ≡ self.now.grid }
    {
        &self.grid
    }
}
