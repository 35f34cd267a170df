ghost use Rattle.std.specs.Prelude.{◌≡◌, ℕ, ◌<◌, ◌≤◌, true, ◌↔◌, Ok, decimal, MatchOption};
ghost use Rattle.std.specs.Str.Parse.{digits_value};
ghost use Rattle.std.specs.Str.{all_ascii_digits};
ghost use Rattle.fields.specs.Numbers.{fault_number, number_of};

// What keeps a byte string from being a number.
#[derive(Clone, Copy, PartialEq, Eq, Debug)]
pub enum NumberFault {
    Empty,
    NotDigit,
    LeadingZero,
    TooLarge,
}

impl NumberFault {
    // The number by which the refusal is known. A method: `u8::from(fault)` at a call would not say which number is meant.
    pub fn number(self) -> u8
        ensures { result ≡ fault_number self }
    {
        match self {
            NumberFault::Empty => 1,
            NumberFault::NotDigit => 2,
            NumberFault::LeadingZero => 3,
            NumberFault::TooLarge => 4,
        }
    }
}

// Whether each byte is a decimal digit.
fn only_digits(field: &[u8]) -> bool
    ensures { result ≡ all_ascii_digits field.now }
{
    field.iter().all(u8::is_ascii_digit)
}

// The number that the digits write, or none where it is more than 255.
fn value(digits: &[u8]) -> Option<u8>
    requires { all_ascii_digits digits.now ≡ true }
    ensures { MatchOption result (256 ≤ digits_value 10 digits.now) (λ n. n ≡ digits_value 10 digits.now) }
{
    let mut total = 0u8;
    for b in digits {
        total = total.checked_mul(10)?.checked_add(*b - b'0')?;
    }
    Some(total)
}

// A number from 0 to 255 in decimal digits. Of several faults, the first in the order of `NumberFault`.
pub fn read_number(field: &[u8]) -> Result<u8, NumberFault>
    ensures value { result ≡ number_of field.now }
    ensures decimal { (n : ℕ) → (result ≡ Ok n) ↔ ((n < 256) × (field.now ≡ decimal n)) }
{
    if field.is_empty() {
        return Err(NumberFault::Empty);
    }
    if !only_digits(field) {
        return Err(NumberFault::NotDigit);
    }
    if let [b'0', _, ..] = field {
        return Err(NumberFault::LeadingZero);
    }
    value(field).ok_or(NumberFault::TooLarge)
}
