// Reads a draft text from standard input and prints it in the order in which drafts are written, or
// the line of its refusal.
#![tactic(auto)]

use std::io;
use std::io::{Read, Write};
use texts::tidying::tidied;

// As in `press`: no contract says what is read and printed, so it may not be a library's public function.
fn main(rt: HostRuntime) -> io::Result<()> {
    let mut text = Vec::new(rt.alloc());
    rt.stdin().read_to_end(&mut text)?;
    let out = tidied(rt.alloc(), text.as_slice())?;
    rt.stdout().write_all(out.as_slice())
}
