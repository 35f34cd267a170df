// Reads a draft text from standard input, presses the draft, and prints its smallest table, or the
// line of the refusal.
#![tactic(auto)]

use reports::pressed::pressed;
use std::io;
use std::io::{Read, Write};

// As in `tidy`: no contract says what is read and printed, so it may not be a library's public function.
fn main(rt: HostRuntime) -> io::Result<()> {
    let mut text = Vec::new(rt.alloc());
    rt.stdin().read_to_end(&mut text)?;
    let out = pressed(rt.alloc(), text.as_slice())?;
    rt.stdout().write_all(out.as_slice())
}
