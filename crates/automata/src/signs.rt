ghost use Rattle.std.specs.Prelude.{◌≡◌, ◌≤◌, length};
ghost use Rattle.automata.specs.Signs.{Visible, Apart, BlankPast};

pub mod making;

// A list of signs: sign i is the byte that stands for letter i. Bytes past the count are 0.
#[derive(Clone, Copy)]
pub struct Signs {
    // no heap: the signs that there are stand first in 16 places
    bytes: [u8; 16],
    count: usize,
    ghost wide: { length bytes ≡ 16 },
    ghost some: { 1 ≤ count },
    ghost few: { count ≤ 16 },
    ghost visible: { Visible bytes count },
    ghost apart: { Apart bytes count },
    ghost blank: { BlankPast bytes count },
}
