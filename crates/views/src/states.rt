ghost use Rattle.std.specs.Prelude.{◌≡◌};
ghost use Rattle.automata.specs.Sets.{no_states};
ghost use Rattle.views.specs.Colourings.{plain};
ghost use Rattle.views.specs.Those.{reached_set};

use crate::colouring::Colouring;
use automata::sets::StateSet;
use rolls::state::State;

// The set of the states to which a word may have led, as one state of a machine.
#[derive(Clone, Copy, PartialEq, Eq)]
pub struct Reached {
    pub set: StateSet,
}

// By hand: Default cannot be derived for a set, which has a ghost field.
impl Default for Reached {
    ghost is_default = { λ x. x ≡ reached_set no_states };

    fn default() -> Reached {
        Reached {
            set: StateSet::empty(),
        }
    }
}

// Two sets with the same members have the same bits.
impl State for Reached {
    ghost blank = { reached_set no_states };

    fn blank() -> Reached {
        Reached::default()
    }

    fn same(&self, other: &Reached) -> bool {
        u32::from(self.set) == u32::from(other.set)
    }
}

// By hand: tried to derive, and the proof that it is the blank one did not close for an array of 128.
impl Default for Colouring {
    ghost is_default = { λ x. x ≡ plain 0 };

    fn default() -> Colouring {
        Colouring::plain(0)
    }
}

// Two colourings are the same where their codes are.
impl State for Colouring {
    ghost blank = { plain 0 };

    fn blank() -> Colouring {
        Colouring::default()
    }

    fn same(&self, other: &Colouring) -> bool {
        self.codes == other.codes
    }
}
