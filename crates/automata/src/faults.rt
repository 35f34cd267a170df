ghost use Rattle.std.specs.Prelude.{◌≡◌};
ghost use Rattle.automata.specs.Signs.{sign_fault_number};

// Why a list of signs is refused.
#[derive(Clone, Copy, PartialEq, Eq, Debug)]
pub enum SignFault {
    // there are not 1 to 16 signs
    Count,
    // a sign is no byte from 33 to 126, or stands twice
    Byte,
}

impl SignFault {
    // The number by which the refusal is known. A method: `u8::from(fault)` at a call would not say which number is meant.
    pub fn number(self) -> u8
        ensures { result ≡ sign_fault_number self }
    {
        match self {
            SignFault::Count => 1,
            SignFault::Byte => 2,
        }
    }
}
