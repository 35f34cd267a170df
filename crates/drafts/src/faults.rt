ghost use Rattle.std.specs.Prelude.{◌≡◌};
ghost use Rattle.drafts.specs.Calls.{call_fault_number};

// Why a call on a draft is refused.
#[derive(Clone, Copy, PartialEq, Eq, Debug)]
pub enum CallFault {
    // a named state does not exist
    NoState,
    // the letter is not below the number of signs
    NoLetter,
    // the kind does not admit the value
    NotAdmitted,
    // there are 32 states
    Full,
    // the arrow or the entry state is there already
    Present,
    // the arrow or the entry state is not there
    Absent,
}

impl CallFault {
    // The number by which the refusal is known. A method: `u8::from(fault)` at a call would not say which number is meant.
    pub fn number(self) -> u8
        ensures { result ≡ call_fault_number self }
    {
        match self {
            CallFault::NoState => 3,
            CallFault::NoLetter => 4,
            CallFault::NotAdmitted => 5,
            CallFault::Full => 6,
            CallFault::Present => 7,
            CallFault::Absent => 8,
        }
    }
}
