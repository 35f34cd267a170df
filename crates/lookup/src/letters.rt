ghost use Rattle.automata.specs.Shown.{sign_bytes};
ghost use Rattle.lookup.specs.Lookups.{LetterOf};

use automata::signs::Signs;

// The letter that a sign stands for.
pub fn letter_of(signs: &Signs, byte: u8) -> Option<usize>
    ensures { LetterOf (sign_bytes signs.now) byte result }
{
    signs.letter(byte)
}
