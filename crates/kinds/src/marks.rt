ghost use Rattle.std.specs.Prelude.{◌≡◌, true, bit_or};
ghost use Rattle.kinds.specs.Delivered.{m_model};

use crate::kind::Kind;

// A set of eight marks: 0 to 255, joined bit by bit.
#[derive(Clone, Copy)]
pub struct M;

impl Kind for M {
    ghost model = { m_model };

    fn admits(_code: u8) -> bool {
        true
    }

    fn combine(a: u8, b: u8) -> u8
        ensures value { m_model.admits a ≡ true → m_model.admits b ≡ true → result ≡ m_model.op a b }
        ensures any { result ≡ bit_or a b }
    {
        a | b
    }
}
