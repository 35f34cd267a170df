ghost use Rattle.std.specs.Prelude.{◌≡◌, length, position, Some, None, MatchResult, ◌==◌};
ghost use Rattle.automata.specs.Signs.{sign_fault};
ghost use Rattle.automata.specs.Shown.{sign_bytes, SignsMade};

use crate::faults::SignFault;
use crate::places::in_places;
use crate::signs::Signs;

// Whether there are 1 to 16 signs, each a byte from 33 to 126 that stands once.
fn check_signs(signs: &[u8]) -> Result<(), SignFault>
    ensures { MatchResult result (λ _. sign_fault signs.now ≡ None) (λ e. sign_fault signs.now ≡ Some e) }
{
    if signs.is_empty() || signs.len() > 16 {
        return Err(SignFault::Count);
    }
    for (i, sign) in signs.iter().enumerate() {
        if *sign < 33 || *sign > 126 {
            return Err(SignFault::Byte);
        }
        if signs[0..i].contains(sign) {
            return Err(SignFault::Byte);
        }
    }
    Ok(())
}

impl Signs {
    // The list of these signs, or the first rule that they break.
    pub fn new(signs: &[u8]) -> Result<Signs, SignFault>
        ensures { SignsMade signs.now result }
    {
        check_signs(signs)?;
        Ok(Signs {
            bytes: in_places(signs, 0),
            count: signs.len(),
        })
    }

    // How many letters there are.
    pub fn len(&self) -> usize
        ensures { result ≡ length (sign_bytes self.now) }
    {
        self.count
    }

    pub fn as_slice(&self) -> &[u8]
        ensures { result.now ≡ sign_bytes self.now }
    {
        &self.bytes[0..self.count]
    }

    // The letter that a sign stands for: the place at which it stands.
    pub fn letter(&self, sign: u8) -> Option<usize>
        ensures { result ≡ position (λ s. s == sign) (sign_bytes self.now) }
    {
        self.as_slice().iter().position(|s| *s == sign)
    }
}
