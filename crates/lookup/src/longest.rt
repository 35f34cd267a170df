ghost use Rattle.std.specs.Prelude.{◌≡◌};
ghost use Rattle.lookup.specs.Lookups.{kept, Best, Longest};

use crate::faults::LongestFault;
use crate::letters::letter_of;
use crate::value::state_value;
use kinds::kind::Kind;
use tables::grid::Grid;
use tables::table::Table;
use views::table_machine::next_state;

// The front part that ends here where its value is other than none, else the one before.
fn keep<K: Kind>(best: Option<(usize, u8)>, end: usize, value: u8) -> Option<(usize, u8)>
    ensures { result ≡ kept K.model.none best end value }
{
    (value != K::none()).then_some((end, value)).or(best)
}

// The end and the value of the longest front part that has a value other than none.
fn best_end<K: Kind>(grid: &Grid, text: &[u8]) -> Option<(usize, u8)>
    ensures { Best K.model grid.now text.now result }
{
    let signs = grid.signs();
    let mut state = 0;
    let mut best = keep::<K>(None, 0, state_value::<K>(grid, state));
    for (place, byte) in text.iter().enumerate() {
        let Some(letter) = letter_of(&signs, *byte) else {
            return best;
        };
        state = next_state(grid, state, letter);
        best = keep::<K>(best, place + 1, state_value::<K>(grid, state));
    }
    best
}

// The longest front part of a text that spells a word with a value other than none, as a part of the
// text itself, and that value. Bytes from the first that is no sign on are not looked at.
pub fn longest<'t, K: Kind>(
    table: &Table<K>,
    text: &'t [u8],
) -> Result<(&'t [u8], u8), LongestFault>
    ensures { Longest K.model table.now.grid text.entry result }
{
    let (end, value) = best_end::<K>(table.grid(), text).ok_or(LongestFault::NoPart)?;
    Ok((&text[..end], value))
}
