ghost use Rattle.std.specs.Prelude.{◌≡◌, true};
ghost use Rattle.kinds.specs.Kinds.{KindModel, clean, join};

// A kind of value. A value is one byte, its code; the codes that a kind admits form a
// join-semilattice whose least element is the code called none.
//
// An implementation gives `admits` and `combine`, and shows by the ghost member `model` that the
// laws hold of the codes that it admits. It owes nothing else.
pub trait Kind {
    ghost model: { KindModel };

    // Whether `code` stands for a value of this kind.
    fn admits(code: u8) -> bool
        ensures { result ≡ model.admits code };

    // The join of two admitted codes. Of other codes nothing is asked: callers use `join`.
    fn combine(a: u8, b: u8) -> u8
        ensures { model.admits a ≡ true → model.admits b ≡ true → result ≡ model.op a b };

    // The code of no value, which joins without effect.
    fn none() -> u8
        ensures { result ≡ model.none }
    {
        0u8
    }

    // `code` where it is admitted, and else none: the join of this one code.
    fn clean(code: u8) -> u8
        ensures { result ≡ clean model code }
    {
        if Self::admits(code) {
            code
        } else {
            Self::none()
        }
    }

    // The join of any two codes, each of which counts as none where it is not admitted.
    fn join(a: u8, b: u8) -> u8
        ensures { result ≡ join model a b }
    {
        Self::combine(Self::clean(a), Self::clean(b))
    }
}
