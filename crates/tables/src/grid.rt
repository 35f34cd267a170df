ghost use Rattle.std.specs.Prelude.{◌≡◌, ◌≤◌, length};
ghost use Rattle.automata.specs.Signs.{BlankPast};
ghost use Rattle.automata.specs.Held.{Bytes, RowsOf};
ghost use Rattle.tables.specs.Held.{values_of, cells_of, no_rows, Inside, RowsBlank, ColumnsBlank};

use crate::grid::row::Row;
use automata::signs::Signs;

pub mod building;
pub mod laying;
pub mod making;
mod row;

// The signs, and a row for each of 1 to 128 states. The start is state 0; everything past the count or
// the signs is 0, so two grids that hold the same are equal.
// An array and a count, since a table is of fixed size, and without a heap.
#[derive(Clone, Copy)]
pub struct Grid {
    signs: Signs,
    count: usize,
    rows: [Row; 128],
    ghost some: { 1 ≤ count },
    ghost few: { count ≤ 128 },
    ghost tall: { length rows ≡ 128 },
    ghost bytes: { Bytes (values_of rows) },
    ghost columns: { RowsOf 16 (cells_of rows) },
    ghost blank: { BlankPast (values_of rows) count },
    ghost inside: { Inside (cells_of rows) count signs.count },
    ghost below: { RowsBlank (cells_of rows) count },
    ghost beside: { ColumnsBlank (cells_of rows) signs.count },
}

// Rows in which nothing but 0 stands.
fn no_rows() -> [Row; 128]
    ensures { result ≡ no_rows }
{
    let row = Row {
        value: 0,
        next: [0; 16],
    };
    [row; 128]
}
