ghost use Rattle.std.specs.Prelude.{◌≡◌, Decides};

// What a type of entries tells: whether two are equal, and a blank one. Nothing else is asked of it.
pub trait State: Drop {
    ghost blank: { Self };

    fn blank() -> Self
        ensures { result ≡ blank };

    fn same(&self, other: &Self) -> bool
        ensures { Decides result (self.now ≡ other.now) };
}

impl State for usize {
    ghost blank = { 0 };

    fn blank() -> usize {
        0
    }

    fn same(&self, other: &usize) -> bool {
        *self == *other
    }
}

impl State for u64 {
    ghost blank = { 0 };

    fn blank() -> u64 {
        0
    }

    fn same(&self, other: &u64) -> bool {
        *self == *other
    }
}

// Two entries side by side; the blank pair is the pair of the blanks.
impl<A: State, B: State> State for (A, B) {
    ghost blank = { (A.State.blank, B.State.blank) };

    fn blank() -> (A, B) {
        (A::blank(), B::blank())
    }

    fn same(&self, other: &(A, B)) -> bool {
        self.0.same(&other.0) && self.1.same(&other.1)
    }
}
