ghost use Rattle.std.specs.Prelude.{◌≡◌};
ghost use Rattle.kinds.specs.Kinds.{clean};
ghost use Rattle.tables.specs.Shown.{shown};
ghost use Rattle.views.specs.TableViews.{value_of_state};
ghost use Rattle.lookup.specs.Lookups.{Valued};

use crate::faults::ValueFault;
use crate::letters::letter_of;
use kinds::kind::Kind;
use tables::grid::Grid;
use tables::table::Table;
use views::table_machine::{next_state, value_at};

// The value of a state; a value that is not admitted counts as none.
pub fn state_value<K: Kind>(grid: &Grid, state: usize) -> u8
    ensures { result ≡ clean K.model (value_of_state K.model (shown grid.now) state) }
{
    K::clean(value_at::<K>(grid, state))
}

// The value of the word that a text spells, or the place of its first byte that is no sign.
pub fn value<K: Kind>(table: &Table<K>, text: &[u8]) -> Result<u8, ValueFault>
    ensures { Valued K.model table.now.grid text.now result }
{
    let grid = table.grid();
    let signs = grid.signs();
    let mut state = 0;
    for (place, byte) in text.iter().enumerate() {
        let letter = letter_of(&signs, *byte).ok_or(ValueFault::NoSign { place })?;
        state = next_state(grid, state, letter);
    }
    Ok(state_value::<K>(grid, state))
}
