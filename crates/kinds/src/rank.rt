ghost use Rattle.std.specs.Prelude.{◌≡◌, max, true};
ghost use Rattle.kinds.specs.Delivered.{r_model};

use crate::kind::Kind;

// A rank: 0 to 255, joined to the larger.
// Y joins so too; with one type and a const parameter only an alias would say which codes Y admits, and no contract states an alias.
#[derive(Clone, Copy)]
pub struct R;

impl Kind for R {
    ghost model = { r_model };

    fn admits(_code: u8) -> bool {
        true
    }

    fn combine(a: u8, b: u8) -> u8
        ensures value { r_model.admits a ≡ true → r_model.admits b ≡ true → result ≡ r_model.op a b }
        ensures any { result ≡ max a b }
    {
        a.max(b)
    }
}
