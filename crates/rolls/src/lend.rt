// What a caller that lends entries to a roll knows of them afterwards.
ghost use Rattle.std.specs.Prelude.{◌≡◌, ◌≤◌, ◌≢◌, ◌⊎◌, length, replicate, is_ok, Decides, slice_set};

use crate::fault::RollFault;
use crate::roll::Roll;
use crate::state::State;

// One entry placed: it stands first, and all others are blank.
fn lend_any<T: State>(entries: &mut [T], x: T)
    ensures { entries.new ≡ slice_set (replicate (length entries.old) T.blank) 0 x }
{
    let mut roll = Roll::fresh(entries);
    let _ = roll.place(x);
}

// Two entries placed: an equal one is not added again, and another is refused where only one entry was lent.
fn lend_two<T: State>(entries: &mut [T], x: T, y: T) -> Result<usize, RollFault>
    ensures equal { x ≡ y → entries.new ≡ slice_set (replicate (length entries.old) T.blank) 0 x }
    ensures apart { (x ≢ y) → entries.new ≡ slice_set (slice_set (replicate (length entries.old) T.blank) 0 x) 1 y }
    ensures answer { Decides (is_ok result) ((1 ≤ length entries.old) × ((x ≡ y) ⊎ (2 ≤ length entries.old))) }
{
    let mut roll = Roll::fresh(entries);
    let _ = roll.place(x);
    roll.place(y)
}
