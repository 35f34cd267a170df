// Kinds written outside the library. They show the laws, and no more.
ghost use Rattle.checks.specs.Further.{nothing, gaps};

use kinds::kind::Kind;

// 0 alone.
#[derive(Clone, Copy)]
pub struct Nothing;

impl Kind for Nothing {
    ghost model = { nothing };

    fn admits(code: u8) -> bool {
        code == 0
    }

    fn combine(_a: u8, _b: u8) -> u8 {
        0
    }
}

// 0, 2 and 7, joined to the larger.
#[derive(Clone, Copy)]
pub struct Gaps;

impl Kind for Gaps {
    ghost model = { gaps };

    fn admits(code: u8) -> bool {
        matches!(code, 0 | 2 | 7)
    }

    fn combine(a: u8, b: u8) -> u8 {
        a.max(b)
    }
}
