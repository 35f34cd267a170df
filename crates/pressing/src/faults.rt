ghost use Rattle.std.specs.Prelude.{◌≡◌};
ghost use Rattle.pressing.specs.Pressed.{press_fault_number};
ghost use Rattle.pressing.specs.Verdicts.{verdict_fault_number};
ghost use Rattle.pressing.specs.declared.faults.VerdictFault.{VerdictFault};

// Which build of a press has no room: it reaches more than 128 states, or more than there are entries.
#[derive(Clone, Copy, PartialEq, Eq, Debug)]
pub enum PressFault {
    // that of the machine itself
    First,
    // the one that reads backward
    Backward,
    // the one of the last table
    Last,
}

impl PressFault {
    // The number by which the refusal is known. A method: `u8::from(fault)` at a call would not say which number is meant.
    pub fn number(self) -> u8
        ensures { result ≡ press_fault_number self }
    {
        match self {
            PressFault::First => 9,
            PressFault::Backward => 10,
            PressFault::Last => 11,
        }
    }
}

// Why there is no verdict on a state.
#[derive(Clone, Copy, PartialEq, Eq, Debug)]
pub enum VerdictFault {
    // the draft has no such state
    NoState,
    Press(PressFault),
}

impl VerdictFault {
    // The number by which the refusal is known. A method: `u8::from(fault)` at a call would not say which number is meant.
    pub fn number(self) -> u8
        ensures { result ≡ verdict_fault_number self }
    {
        match self {
            VerdictFault::NoState => 3,
            VerdictFault::Press(fault) => fault.number(),
        }
    }
}

impl From<PressFault> for VerdictFault {
    ghost from_gives = { λ x y. y ≡ VerdictFault.Press x };

    fn from(value: PressFault) -> VerdictFault {
        VerdictFault::Press(value)
    }
}
