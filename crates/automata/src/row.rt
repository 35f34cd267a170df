ghost use Rattle.std.specs.Prelude.{◌≡◌, ◌<◌, length};

use crate::sets::StateSet;

pub mod ends;

// What an automaton holds of one state: its code, and by each letter the ends of its arrows.
#[derive(Clone, Copy)]
pub struct Row {
    pub code: u8,
    pub ends: [StateSet; 16],
    ghost byte: { code < 256 },
    ghost wide: { length ends ≡ 16 },
}
