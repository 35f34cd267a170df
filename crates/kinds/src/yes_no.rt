ghost use Rattle.std.specs.Prelude.{◌≡◌, max, true};
ghost use Rattle.kinds.specs.Delivered.{y_model};

use crate::kind::Kind;

// No and yes: 0 and 1, joined to the larger.
#[derive(Clone, Copy)]
pub struct Y;

impl Kind for Y {
    ghost model = { y_model };

    fn admits(code: u8) -> bool {
        code < 2
    }

    fn combine(a: u8, b: u8) -> u8
        ensures value { y_model.admits a ≡ true → y_model.admits b ≡ true → result ≡ y_model.op a b }
        ensures any { result ≡ max a b }
    {
        a.max(b)
    }
}
