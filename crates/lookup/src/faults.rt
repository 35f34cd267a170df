ghost use Rattle.std.specs.Prelude.{◌≡◌};
ghost use Rattle.lookup.specs.Lookups.{value_fault_number, longest_fault_number};

// Why a text has no value.
#[derive(Clone, Copy, PartialEq, Eq, Debug)]
pub enum ValueFault {
    // the first byte that is no sign stands at this place, counted from 0
    NoSign { place: usize },
}

impl ValueFault {
    // The number by which the refusal is known. A method: `u8::from(fault)` at a call would not say which number is meant.
    pub fn number(self) -> u8
        ensures { result ≡ value_fault_number self }
    {
        match self {
            ValueFault::NoSign { .. } => 12,
        }
    }
}

// Why a text has no longest front part.
#[derive(Clone, Copy, PartialEq, Eq, Debug)]
pub enum LongestFault {
    // no front part has a value other than none
    NoPart,
}

impl LongestFault {
    // The number by which the refusal is known. A method: `u8::from(fault)` at a call would not say which number is meant.
    pub fn number(self) -> u8
        ensures { result ≡ longest_fault_number self }
    {
        match self {
            LongestFault::NoPart => 13,
        }
    }
}
