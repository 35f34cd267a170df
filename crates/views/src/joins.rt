ghost use Rattle.std.specs.Prelude.{◌≡◌, ℕ, Bool, if◌then◌else◌};
ghost use Rattle.kinds.specs.Kinds.{join};
ghost use Rattle.views.specs.DraftViews.{join_over};

use kinds::kind::Kind;

// The join of the codes of those states below the count of which the test is true.
pub(crate) fn join_over<K: Kind, S: Fn(usize) -> bool, F: Fn(usize) -> u8>(
    count: usize,
    test: S,
    code: F,
) -> u8
    requires tests { S.IsAlwaysCallable test }
    requires codes { F.IsAlwaysCallable code }
    ensures { (s : ℕ → Bool) (f : ℕ → ℕ) → ((p : ℕ) (b : Bool) → S.post test p b → b ≡ s p) → ((p r : ℕ) → F.post code p r → r ≡ f p) → result ≡ join_over K.model count s f }
{
    // in one fold: by filter and map the members were looked for in a loop inside the loop, which took longer
    (0..count).fold(
        K::none(),
        |joined, p|
            requires tests { S.IsAlwaysCallable test }
            requires codes { F.IsAlwaysCallable code }
            ensures { (b : Bool) (x : ℕ) → ((c : Bool) → S.post test p c → c ≡ b) → ((r : ℕ) → F.post code p r → r ≡ x) → result ≡ (if b then join K.model joined x else joined) }
        {
            if test(p) {
                K::join(joined, code(p))
            } else {
                joined
            }
        },
    )
}
