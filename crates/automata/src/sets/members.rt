ghost use Rattle.std.specs.Prelude.{◌≡◌, ℕ, ◌<◌, ◌≤◌, ◌||◌, if◌then◌else◌, nat_eq};
ghost use Rattle.automata.specs.Sets.{has, no_states};

use crate::sets::StateSet;

// The set whose members are the places of the bits of `bits`.
impl From<u32> for StateSet {
    ghost from_gives = { λ bits set. set.bits ≡ bits };

    fn from(bits: u32) -> StateSet {
        StateSet { bits }
    }
}

impl From<StateSet> for u32 {
    ghost from_gives = { λ set bits. bits ≡ set.bits };

    fn from(set: StateSet) -> u32 {
        set.bits
    }
}

impl StateSet {
    // The set with no member.
    pub fn empty() -> StateSet
        ensures { result ≡ no_states }
    {
        StateSet { bits: 0 }
    }

    // Whether `state` is a member; no number from 32 on is one.
    pub fn has(&self, state: usize) -> bool
        ensures { result ≡ has self.now state }
    {
        state < 32 && self.bits >> state & 1 == 1
    }

    // The set with `state` in it or out of it; a number from 32 on changes nothing.
    pub fn put(self, state: usize, member: bool) -> StateSet
        ensures own { state < 32 → (q : ℕ) → has result q ≡ (if nat_eq q state then member else has self q) }
        ensures past { 32 ≤ state → result ≡ self }
    {
        if state >= 32 {
            return self;
        }
        if member {
            return StateSet {
                bits: self.bits | 1 << state,
            };
        }
        StateSet {
            bits: self.bits & !(1 << state),
        }
    }

    // The set of the members of either.
    pub fn union(self, other: StateSet) -> StateSet
        ensures { (q : ℕ) → has result q ≡ (has self q || has other q) }
    {
        StateSet {
            bits: self.bits | other.bits,
        }
    }
}
