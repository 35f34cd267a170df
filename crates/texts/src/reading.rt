// A whole draft text, line by line.
ghost use Rattle.std.specs.Prelude.{◌≡◌, true, ◌⊎◌, []};
ghost use Rattle.drafts.specs.Drawn.{drawn};
ghost use Rattle.automata.specs.Shown.{sign_bytes};
ghost use Rattle.texts.specs.Gives.{LineRead, LinesRead, RestRead, DraftRead};
ghost use Rattle.texts.specs.Reading.{line_ended};

use crate::any::AnyDraft;
use crate::faults::{LineFault, TextFault};
use crate::letters::KindLetter;
use crate::records::{read_call, read_head};
use automata::signs::Signs;
use drafts::draft::Draft;
use fields::cutting::cut;
use kinds::kind::Kind;
use kinds::marks::M;
use kinds::rank::R;
use kinds::yes_no::Y;

// The largest text that is read, in bytes.
const LIMIT: usize = 32768;

// Whether there is a last byte, and it is a newline.
fn is_ended(text: &[u8]) -> bool
    ensures { result ≡ line_ended text.now }
{
    text.ends_with(b"\n")
}

// Makes the call that a line stands for.
fn read_line<K: Kind>(draft: &mut Draft<K>, line: &[u8]) -> Result<(), LineFault>
    ensures { LineRead K.model (drawn draft.old) line.now (drawn draft.new) result }
{
    let call = read_call(draft.automaton().signs(), line)?;
    draft.apply(call)?;
    Ok(())
}

// Makes the calls of the lines from the second on.
fn read_lines<K: Kind>(mut draft: Draft<K>, text: &[u8]) -> Result<Draft<K>, TextFault>
    requires { (text.now ≡ []) ⊎ (line_ended text.now ≡ true) }
    ensures { LinesRead K.model (drawn draft) text.now result }
{
    let mut rest = text;
    // by `cut`, since the rest of the text goes on to the next line; so the lines are counted by hand
    let mut number = 1;
    while let Some((line, more)) = cut(rest, b'\n') {
        number += 1;
        read_line(&mut draft, line).map_err(|fault| (number, fault))?;
        rest = more;
    }
    Ok(draft)
}

// The draft of this kind with these signs that the lines from the second on draw.
// One arm for each kind: a kind is a type, and no closure takes one.
fn read_rest(kind: KindLetter, signs: Signs, rest: &[u8]) -> Result<AnyDraft, TextFault>
    requires { (rest.now ≡ []) ⊎ (line_ended rest.now ≡ true) }
    ensures { RestRead kind (sign_bytes signs) rest.now result }
{
    match kind {
        KindLetter::Y => read_lines(Draft::<Y>::fresh(signs), rest).map(AnyDraft::OfY),
        KindLetter::R => read_lines(Draft::<R>::fresh(signs), rest).map(AnyDraft::OfR),
        KindLetter::M => read_lines(Draft::<M>::fresh(signs), rest).map(AnyDraft::OfM),
    }
}

// The draft that a text spells, or the first fault of the text.
pub fn read_draft(text: &[u8]) -> Result<AnyDraft, TextFault>
    ensures { DraftRead text.now result }
{
    if text.len() > LIMIT {
        return Err(TextFault::TooLong);
    }
    if !is_ended(text) {
        return Err(TextFault::NoEnd);
    }
    let Some((line, rest)) = cut(text, b'\n') else {
        return Err(TextFault::NoEnd);
    };
    let (kind, signs) = read_head(line).map_err(|fault| (1usize, fault))?;
    read_rest(kind, signs, rest)
}
