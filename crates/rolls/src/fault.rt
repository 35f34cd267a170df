ghost use Rattle.std.specs.Prelude.{◌≡◌};
ghost use Rattle.rolls.specs.Faults.{roll_fault_number};

// Why an entry was not placed.
#[derive(Clone, Copy, PartialEq, Eq, Debug)]
pub enum RollFault {
    // The entry is new, and no supplied entry is free.
    Full,
}

impl RollFault {
    // The number by which the refusal is known. A method: `u8::from(fault)` at a call would not say which number is meant.
    pub fn number(self) -> u8
        ensures { result ≡ roll_fault_number self }
    {
        match self {
            RollFault::Full => 16,
        }
    }
}
