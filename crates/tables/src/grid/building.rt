// One build for every machine: the states that words reach, numbered by first reach.
ghost use Rattle.std.specs.Prelude.{◌≡◌, ◌<◌, ◌≤◌, length, replicate, slice_index_or};
ghost use Rattle.automata.specs.Shown.{sign_bytes};
ghost use Rattle.machines.specs.Models.{alphabet};
ghost use Rattle.rolls.specs.Loans.{KeepsLoan};
ghost use Rattle.tables.specs.Builds.{build_fault_number, Ended, Wiped};
ghost use Rattle.tables.specs.Filling.{Filling};
ghost use Rattle.tables.specs.Held.{values_of, cells_of, no_rows};
ghost use Rattle.tables.specs.Steps.{RowEnd, WalkEnd};
ghost use Rattle.tables.specs.declared.grid.building.BuildFault.{BuildFault};

use crate::grid::row::Row;
use crate::grid::{Grid, no_rows};
use crate::table::Table;
use automata::signs::Signs;
use kinds::kind::Kind;
use machines::machine::Machine;
use rolls::fault::RollFault;
use rolls::roll::Roll;
use rolls::state::State;

// Why a machine is not built.
#[derive(Clone, Copy, PartialEq, Eq, Debug)]
pub enum BuildFault {
    // it reaches more than 128 states, or more than there are entries
    TooMany,
}

impl BuildFault {
    // The number by which the refusal is known. A method: `u8::from(fault)` at a call would not say which number is meant.
    pub fn number(self) -> u8
        ensures { result ≡ build_fault_number self }
    {
        match self {
            BuildFault::TooMany => 9,
        }
    }
}

impl From<RollFault> for BuildFault {
    ghost from_gives = { λ x y. y ≡ BuildFault.TooMany };

    fn from(_value: RollFault) -> BuildFault {
        BuildFault::TooMany
    }
}

// The value and the next states of state i; new states go to the end of the roll.
fn fill_row<M: Machine>(
    machine: &M,
    i: usize,
    letters: usize,
    rows: &mut [Row; 128],
    roll: &mut Roll<'_, M::State>,
) -> Result<(), BuildFault>
    requires letters { letters ≡ alphabet (M.meaning machine.now) }
    requires listed { i < roll.old.len }
    requires filling { Filling (M.meaning machine.now) M.State.State.blank roll.old.entries.now roll.old.len (values_of rows.old) i (cells_of rows.old) i 0 }
    ensures kept { KeepsLoan roll.old roll.new }
    ensures ended { RowEnd (M.meaning machine.now) M.State.State.blank roll.new.entries.now roll.new.len (values_of rows.new) (cells_of rows.new) i result }
    ensures listed { i < roll.new.len }
{
    rows[i].value = machine.value(&roll.as_slice()[i]);
    // Counted: over the cells it would be `rows[i].next[..letters].iter_mut().enumerate()`, which is no plainer.
    for letter in 0..letters {
        let state = machine.step(&roll.as_slice()[i], letter);
        let number = roll.place(state)?;
        if number >= 128 {
            return Err(BuildFault::TooMany);
        }
        // Below 128 by the line above: `u8::try_from` would add a refusal that cannot come.
        rows[i].next[letter] = number as u8;
    }
    Ok(())
}

// The rows of all states that words reach; answers how many there are.
fn walk<M: Machine>(
    machine: &M,
    letters: usize,
    rows: &mut [Row; 128],
    roll: &mut Roll<'_, M::State>,
) -> Result<usize, BuildFault>
    requires letters { letters ≡ alphabet (M.meaning machine.now) }
    requires blank_rows { rows.old ≡ no_rows }
    requires blank_roll { roll.old.entries.now ≡ replicate (length roll.old.entries.now) M.State.State.blank }
    requires unlisted { roll.old.len ≡ 0 }
    ensures kept { KeepsLoan roll.old roll.new }
    ensures ended { WalkEnd (M.meaning machine.now) M.State.State.blank roll.new.entries.now roll.new.len (values_of rows.new) (cells_of rows.new) result }
{
    roll.place(machine.start())?;
    let mut i = 0;
    // By while: the roll grows as its rows are filled.
    while i < roll.len() {
        fill_row(machine, i, letters, rows, roll)?;
        i += 1;
    }
    Ok(i)
}

// Leaves a blank table with these signs, and an empty and blank roll.
pub fn wipe<K: Kind, T: State>(signs: Signs, table: &mut Table<K>, roll: &mut Roll<'_, T>)
    ensures kept { KeepsLoan roll.old roll.new }
    ensures wiped { Wiped (sign_bytes signs) K.Kind.model.none T.State.blank table.new.grid roll.new.entries.now roll.new.len }
{
    *table = Table::blank(signs);
    roll.clear();
}

// Writes the states that words reach in the machine into the table and the roll, numbered by first
// reach. Refused where there are more than 128 of them, or more than the roll has entries; the table
// is then blank, and the roll empty and blank.
pub fn build<M: Machine>(
    machine: &M,
    table: &mut Table<M::Kind>,
    roll: &mut Roll<'_, M::State>,
) -> Result<(), BuildFault>
    ensures kept { KeepsLoan roll.old roll.new }
    ensures ended { Ended (M.meaning machine.now) M.State.State.blank table.new.grid roll.new.entries.now roll.new.len result }
{
    let signs = machine.signs();
    let mut rows = no_rows();
    roll.clear();
    match walk(machine, signs.len(), &mut rows, roll) {
        Ok(count) => {
            let grid = Grid { signs, count, rows };
            *table = Table::of(grid);
            Ok(())
        }
        Err(fault) => {
            wipe(signs, table, roll);
            Err(fault)
        }
    }
}
