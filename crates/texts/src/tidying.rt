// A draft text put into the one order in which drafts are written.
ghost use Rattle.std.specs.Prelude.{◌≡◌, IfOk};
ghost use Rattle.texts.specs.Any.{letter_of_draft, model_of};
ghost use Rattle.texts.specs.Grammar.{written};
ghost use Rattle.texts.specs.Tidying.{tidy_of};
ghost use Rattle.texts.specs.Writing.{refusal_line};

use crate::any::AnyDraft;
use crate::faults::Refusal;
use crate::reading::read_draft;
use crate::writing::{draft_len, refusal_len, write_draft, write_refusal};
use fields::written::Written;
use std::alloc::{AllocError, Global};

// A text in memory of its own.
pub fn written_text<T: Written>(heap: Global, item: &T) -> Result<Vec<u8>, AllocError>
    ensures { IfOk result (λ v. v.items ≡ T.text item.now) }
{
    let mut text = vec![in heap; 0u8; item.written_len()]?;
    let _ = item.write(text.as_mut_slice());
    Ok(text)
}

// The text of a draft, in memory of its own: made by `write_draft`, as that of a refusal by `write_refusal`.
pub fn draft_text(heap: Global, draft: &AnyDraft) -> Result<Vec<u8>, AllocError>
    ensures { IfOk result (λ v. v.items ≡ written (letter_of_draft draft.now) (model_of draft.now)) }
{
    let mut text = vec![in heap; 0u8; draft_len(draft)]?;
    let _ = write_draft(draft, text.as_mut_slice());
    Ok(text)
}

// The line of a refusal, in memory of its own.
pub fn refusal_text(heap: Global, refusal: Refusal) -> Result<Vec<u8>, AllocError>
    ensures { IfOk result (λ v. v.items ≡ refusal_line refusal) }
{
    let mut text = vec![in heap; 0u8; refusal_len(refusal)]?;
    let _ = write_refusal(refusal, text.as_mut_slice());
    Ok(text)
}

// What `tidy` prints of a text: the draft as it is written, or the line of the refusal.
// What `press` prints is made alike: a function with a closure for what is made of the draft would be no shorter.
pub fn tidied(heap: Global, text: &[u8]) -> Result<Vec<u8>, AllocError>
    ensures { IfOk result (λ v. v.items ≡ tidy_of text.now) }
{
    match read_draft(text) {
        Ok(draft) => draft_text(heap, &draft),
        Err(fault) => refusal_text(heap, fault.refusal()),
    }
}
