// One line of a draft text: the record letter and a tab, then fields parted by tabs.
ghost use Rattle.std.specs.Prelude.{◌≡◌, ℕ, ◌+◌, true, false, List, [], ◌∷◌, length, position, MatchOption, MatchResult, ◌==◌, ◌≢◌, ok_or};
ghost use Rattle.fields.specs.Pieces.{pieces};
ghost use Rattle.texts.specs.declared.faults.LineFault.{LineFault};
ghost use Rattle.texts.specs.Reading.{letter_in, listed, kind_in, call_of_line};
ghost use Rattle.texts.specs.Gives.{HeadRead};
ghost use Rattle.texts.specs.declared.faults.FieldFault.{FieldFault};

use crate::faults::{FieldFault, LineFault};
use crate::letters::KindLetter;
use automata::arrow::Arrow;
use automata::signs::Signs;
use drafts::calls::Call;
use fields::cutting::cut;
use fields::numbers::read_number;

// The record letter, and what follows the tab behind it.
fn split_record(line: &[u8]) -> Option<(u8, &[u8])>
    ensures { MatchOption result ((t : ℕ) (rest : List ℕ) → line.now ≢ t ∷ 9 ∷ rest) (λ p. (line.now ≡ p.0 ∷ 9 ∷ p.1.now) × (p.1.ref_ptr ≡ (line.entry.ref_ptr.0, line.entry.ref_ptr.1 + 2))) }
{
    match line {
        [letter, b'\t', rest @ ..] => Some((*letter, rest)),
        _ => None,
    }
}

// One function for any number of fields would answer `[&[u8]; N]`; tried, and a signature with it gets no proof.
// The next field, and what follows the tab behind it.
fn next_field(rest: &[u8]) -> Result<(&[u8], &[u8]), LineFault>
    ensures { MatchResult result (λ p. pieces 9 rest.now ≡ p.0.now ∷ pieces 9 p.1.now) (λ e. (e ≡ LineFault.FieldCount) × (length (pieces 9 rest.now) ≡ 1)) }
{
    cut(rest, b'\t').ok_or(LineFault::FieldCount)
}

// The last field: no tab follows.
fn last_field(rest: &[u8]) -> Result<&[u8], LineFault>
    ensures { MatchResult result (λ f. pieces 9 rest.now ≡ f.now ∷ []) (λ e. (e ≡ LineFault.FieldCount) × (length (pieces 9 rest.now) ≢ 1)) }
{
    match cut(rest, b'\t') {
        None => Ok(rest),
        Some(_) => Err(LineFault::FieldCount),
    }
}

// The place of a sign among the signs. No `Signs::letter`, since `read_call` takes a slice; its own function, since the
// proof did not close inside `read_letter` (tried).
fn place(signs: &[u8], sign: u8) -> Option<usize>
    ensures { result ≡ position (λ s. s == sign) signs.now }
{
    signs.iter().position(|s| *s == sign)
}

// The letter whose sign the field is.
fn read_letter(signs: &[u8], field: &[u8]) -> Option<usize>
    ensures { MatchOption result (listed signs.now field.now ≡ false) (λ i. (listed signs.now field.now ≡ true) × (letter_in signs.now field.now ≡ i)) }
{
    match field {
        [sign] => place(signs, *sign),
        _ => None,
    }
}

// The kind whose letter the field is.
fn read_kind(field: &[u8]) -> Result<KindLetter, FieldFault>
    ensures { result ≡ ok_or (kind_in field.now) FieldFault.NotListed }
{
    match field {
        [letter] => KindLetter::try_from(*letter),
        _ => Err(FieldFault::NotListed),
    }
}

// What an L line says: a state, a sign and a state.
fn read_arrow(signs: &[u8], rest: &[u8]) -> Result<Call, LineFault>
    ensures { result ≡ call_of_line signs.now (76 ∷ 9 ∷ rest.now) }
{
    let (first, rest) = next_field(rest)?;
    let (second, rest) = next_field(rest)?;
    let third = last_field(rest)?;
    let from = read_number(first).map_err(|fault| (2u8, fault))?;
    let letter = read_letter(signs, second).ok_or((3u8, FieldFault::NotListed))?;
    let to = read_number(third).map_err(|fault| (4u8, fault))?;
    Ok(Call::Link(Arrow {
        from: usize::from(from),
        letter,
        to: usize::from(to),
    }))
}

// The call that a line after the first stands for.
// S and E read a number alike: a function for these two lines would need a longer contract than they are.
pub fn read_call(signs: &[u8], line: &[u8]) -> Result<Call, LineFault>
    ensures { result ≡ call_of_line signs.now line.now }
{
    let (letter, rest) = split_record(line).ok_or(LineFault::Record)?;
    match char::from(letter) {
        'S' => {
            let field = last_field(rest)?;
            let value = read_number(field).map_err(|fault| (2u8, fault))?;
            Ok(Call::Grow(value))
        }
        'E' => {
            let field = last_field(rest)?;
            let state = read_number(field).map_err(|fault| (2u8, fault))?;
            Ok(Call::Enter(usize::from(state)))
        }
        'L' => read_arrow(signs, rest),
        _ => Err(LineFault::Record),
    }
}

// The kind and the signs that the first line names.
pub fn read_head(line: &[u8]) -> Result<(KindLetter, Signs), LineFault>
    ensures { HeadRead line.now result }
{
    let (letter, rest) = split_record(line).ok_or(LineFault::Record)?;
    match char::from(letter) {
        'D' => {
            let (kind, rest) = next_field(rest)?;
            let signs = last_field(rest)?;
            let kind = read_kind(kind).map_err(|fault| (2u8, fault))?;
            let signs = Signs::new(signs)?;
            Ok((kind, signs))
        }
        _ => Err(LineFault::Record),
    }
}
