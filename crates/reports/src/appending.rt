// Written forms added at the end of a text.
ghost use Rattle.reports.specs.Appending.{Adds};

use fields::written::Written;
use std::alloc::AllocError;

// Adds the written form of an item.
pub fn add<T: Written>(out: &mut Vec<u8>, item: &T) -> Result<(), AllocError>
    ensures { Adds out.old.items out.new.items (T.text item.now) result }
{
    let start = out.len();
    out.resize(start.saturating_add(item.written_len()), 0)?;
    let _ = item.write(&mut out[start..]);
    Ok(())
}
