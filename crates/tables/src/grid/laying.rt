// A table from its cells.
ghost use Rattle.std.specs.Prelude.{◌≡◌, ℕ, ◌+◌, ◌-◌, ◌*◌, ◌<◌, ◌≤◌, ◌++◌, length, replicate, slice_index};
ghost use Rattle.tables.specs.Held.{values_of, cells_of};
ghost use Rattle.tables.specs.Laying.{lay_fault_number, shaped, all_below, admits_all, Laid, padded, row_at};
ghost use Rattle.tables.specs.declared.grid.laying.LayFault.{LayFault};

use crate::grid::row::Row;
use crate::grid::{Grid, no_rows};
use crate::table::Table;
use automata::faults::SignFault;
use automata::signs::Signs;
use kinds::kind::Kind;

// Why a table is not laid.
#[derive(Clone, Copy, PartialEq, Eq, Debug)]
pub enum LayFault {
    Signs(SignFault),
    // the count is not 1 to 128, or there are not that many values and next states
    Shape,
    // a next state is not below the count
    NoState,
    // a value is not admitted
    NotAdmitted,
}

impl LayFault {
    // The number by which the refusal is known. A method: `u8::from(fault)` at a call would not say which number is meant.
    pub fn number(self) -> u8
        ensures { result ≡ lay_fault_number self }
    {
        match self {
            LayFault::Signs(fault) => fault.number(),
            LayFault::Shape => 14,
            LayFault::NoState => 15,
            LayFault::NotAdmitted => 5,
        }
    }
}

impl From<SignFault> for LayFault {
    ghost from_gives = { λ x y. y ≡ LayFault.Signs x };

    fn from(value: SignFault) -> LayFault {
        LayFault::Signs(value)
    }
}

// Whether there are as many values and next states as the count and the letters ask for.
// That there are at most 16 letters is asked by three functions here, which take the number and not the signs.
fn is_shaped(letters: usize, count: usize, values: usize, cells: usize) -> bool
    requires { letters ≤ 16 }
    ensures { result ≡ shaped letters count values cells }
{
    1 <= count && count <= 128 && values == count && cells == count * letters
}

// Whether each next state is below the count.
fn all_below(next: &[usize], count: usize) -> bool
    ensures { result ≡ all_below count next.now }
{
    next.iter().all(|state| *state < count)
}

// Whether each value is admitted.
fn all_admitted<K: Kind>(values: &[u8]) -> bool
    ensures { result ≡ admits_all K.model values.now }
{
    values.iter().all(|value| K::admits(*value))
}

// Row i in 16 places.
fn lay_row(next: &[usize], letters: usize, i: usize) -> [u8; 16]
    requires few { letters ≤ 16 }
    requires within { i * letters + letters ≤ length next.now }
    requires small { (k : ℕ) → k < length next.now → slice_index next.now k < 128 }
    ensures { result ≡ row_at letters next.now i }
{
    // no heap: 16 places
    let mut row = [0; 16];
    // by its place: `row.iter_mut().zip(next[i * letters..][..letters].iter())` is no plainer
    for (a, state) in next[i * letters..][..letters].iter().enumerate() {
        // below 128 by what is required: `u8::try_from` would add a refusal that cannot come
        row[a] = *state as u8;
    }
    row
}

// A row for each value, in 128 places.
fn lay_rows(values: &[u8], next: &[usize], letters: usize) -> [Row; 128]
    requires few { letters ≤ 16 }
    requires states { length values.now ≤ 128 }
    requires within { length next.now ≡ length values.now * letters }
    requires small { (k : ℕ) → k < length next.now → slice_index next.now k < 128 }
    ensures values { values_of result ≡ padded 128 0 (length values.now) (λ k. slice_index values.now k) }
    ensures cells { cells_of result ≡ padded 128 (replicate 16 0) (length values.now) (row_at letters next.now) }
{
    let mut rows = no_rows();
    // by its number: `zip(next.chunks_exact(letters))` would need one more requirement, that there is a letter
    for (i, value) in values.iter().enumerate() {
        rows[i] = Row {
            value: *value,
            next: lay_row(next, letters, i),
        };
    }
    rows
}

// The table with these signs, this many states, these values, and these next states, row after row.
// Nothing is made where it is refused. Values and next states are two slices, as a caller has them.
pub fn lay<K: Kind>(
    signs: &[u8],
    count: usize,
    values: &[u8],
    next: &[usize],
) -> Result<Table<K>, LayFault>
    ensures { Laid K.model signs.now count values.now next.now result }
{
    let signs = Signs::new(signs)?;
    let letters = signs.len();
    if !is_shaped(letters, count, values.len(), next.len()) {
        return Err(LayFault::Shape);
    }
    if !all_below(next, count) {
        return Err(LayFault::NoState);
    }
    if !all_admitted::<K>(values) {
        return Err(LayFault::NotAdmitted);
    }
    let grid = Grid {
        signs,
        count,
        rows: lay_rows(values, next, letters),
    };
    Ok(Table::of(grid))
}
