ghost use Rattle.std.specs.Prelude.{◌≡◌, unwrap_or, ok_or};
ghost use Rattle.texts.specs.Grammar.{letter_byte};
ghost use Rattle.texts.specs.Reading.{kind_byte};
ghost use Rattle.texts.specs.declared.faults.FieldFault.{FieldFault};

use crate::faults::FieldFault;

// The kinds that have a letter.
#[derive(Clone, Copy, PartialEq, Eq, Debug)]
pub enum KindLetter {
    Y,
    R,
    M,
}

impl KindLetter {
    // The byte of the letter. A method: `u8::from(kind)` at a call would not say that a letter is meant.
    pub fn byte(self) -> u8
        ensures { result ≡ letter_byte self }
    {
        match self {
            KindLetter::Y => b'Y',
            KindLetter::R => b'R',
            KindLetter::M => b'M',
        }
    }
}

impl TryFrom<u8> for KindLetter {
    type Error = FieldFault;

    ghost try_from_gives = { λ b r. r ≡ ok_or (kind_byte b) FieldFault.NotListed };

    fn try_from(letter: u8) -> Result<KindLetter, FieldFault> {
        match char::from(letter) {
            'Y' => Ok(KindLetter::Y),
            'R' => Ok(KindLetter::R),
            'M' => Ok(KindLetter::M),
            _ => Err(FieldFault::NotListed),
        }
    }
}
