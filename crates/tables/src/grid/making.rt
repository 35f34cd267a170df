ghost use Rattle.std.specs.Prelude.{◌≡◌, ◌&&◌, ◌∷◌, length, replicate, if◌then◌else◌, Some, None, nat_lt, slice_index};
ghost use Rattle.automata.specs.Shown.{sign_bytes};
ghost use Rattle.machines.specs.Tables.{count, next};
ghost use Rattle.tables.specs.Held.{values_of, cells_of};
ghost use Rattle.tables.specs.Shown.{shown, Blank};

use crate::grid::row::Row;
use crate::grid::{Grid, no_rows};
use automata::signs::Signs;

// Rows with this value in the first, and nothing else.
fn first_row(value: u8) -> [Row; 128]
    ensures values { values_of result ≡ value ∷ replicate 127 0 }
    ensures cells { cells_of result ≡ replicate 128 (replicate 16 0) }
{
    let mut rows = no_rows();
    rows[0].value = value;
    rows
}

impl Grid {
    // One state with this value, which leads to itself.
    pub fn blank(signs: Signs, value: u8) -> Grid
        ensures { Blank signs value result }
    {
        Grid {
            signs,
            count: 1,
            rows: first_row(value),
        }
    }

    pub fn signs(&self) -> Signs
        ensures { result ≡ self.now.signs }
    {
        self.signs
    }

    pub fn state_count(&self) -> usize
        ensures { result ≡ count (shown self.now) }
    {
        self.count
    }

    // The value of a state, where there is such a state.
    pub fn value(&self, state: usize) -> Option<u8>
        ensures { result ≡ (if nat_lt state (count (shown self.now)) then Some (slice_index (shown self.now).values state) else None) }
    {
        let row = self.rows[..self.count].get(state)?;
        Some(row.value)
    }

    // The state to which a letter leads from a state, where there are such a state and such a letter.
    pub fn next(&self, state: usize, letter: usize) -> Option<usize>
        ensures { result ≡ (if nat_lt state (count (shown self.now)) && nat_lt letter (length (sign_bytes self.now.signs)) then Some (next (length (sign_bytes self.now.signs)) (shown self.now) state letter) else None) }
    {
        let row = self.rows[..self.count].get(state)?;
        let next = row.next[..self.signs.len()].get(letter)?;
        Some(usize::from(*next))
    }
}
