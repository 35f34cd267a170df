ghost use Rattle.std.specs.Prelude.{◌≡◌, ℕ, ◌<◌, List, [], ◌∷◌, length, decimal};
ghost use Rattle.fields.specs.Writing.{PutsCut};
ghost use Rattle.fields.specs.Written.{Wrote};
ghost use Rattle.automata.specs.Drafts.{size, letters};
ghost use Rattle.drafts.specs.Canonical.{each_below, grow_calls, enter_calls, link_calls};
ghost use Rattle.automata.specs.Shown.{shown};
ghost use Rattle.texts.specs.Any.{letter_of_draft, model_of};
ghost use Rattle.texts.specs.Grammar.{head_fields, written};
ghost use Rattle.texts.specs.TextLaws.{ReadsBack};
ghost use Rattle.texts.specs.Writing.{PutsAt, ended_line, call_lines, grow_call, enter_call, link_call, links_by, links_from, refusal_line};

use crate::any::AnyDraft;
use crate::faults::Refusal;
use crate::letters::KindLetter;
use automata::arrow::Arrow;
use automata::automaton::Automaton;
use fields::writing::Writer;
pub use fields::written::WriteFault;
use fields::written::{Field, Written};

// Puts the first line: D, the kind letter and the signs.
fn put_head(letter: KindLetter, signs: &[u8], out: &mut Writer<'_>)
    ensures { PutsCut out.old out.new (ended_line (head_fields letter signs.now)) }
{
    out.put_cut(&[b'D', b'\t', letter.byte(), b'\t']);
    out.put_cut(signs);
    out.put_cut(b"\n");
}

// Puts the line of a record letter and a number.
fn put_numbered(record: u8, number: usize, out: &mut Writer<'_>)
    ensures { PutsCut out.old out.new (ended_line ((«record» ∷ []) ∷ decimal number ∷ [])) }
{
    out.put_cut(&[record]);
    Field(number).put(out);
    out.put_cut(b"\n");
}

// Puts the line of an arrow: L, a state, a sign and a state.
fn put_arrow_line(from: usize, sign: u8, to: usize, out: &mut Writer<'_>)
    ensures { PutsCut out.old out.new (ended_line ((76 ∷ []) ∷ decimal from ∷ (sign ∷ []) ∷ decimal to ∷ [])) }
{
    out.put_cut(b"L");
    Field(from).put(out);
    out.put_cut(&[b'\t', sign]);
    Field(to).put(out);
    out.put_cut(b"\n");
}

// Puts the line of a state.
fn put_state(automaton: &Automaton, state: usize, out: &mut Writer<'_>)
    requires { state < size (shown automaton.now) }
    ensures { PutsCut out.old out.new (call_lines (shown automaton.now).signs (grow_call (shown automaton.now) state)) }
{
    if let Some(code) = automaton.code(state) {
        put_numbered(b'S', usize::from(code), out);
    }
}

// Puts what `put` puts at each number below `count`, in order. Counted: each call takes its number.
fn put_each<F: Fn(usize, &mut Writer<'_>)>(count: usize, out: &mut Writer<'_>, put: F)
    requires { (i : ℕ) (w : _) → i < count → F.pre put i w }
    ensures { (text : ℕ → List ℕ) → PutsAt count (λ i w w'. F.post put i w tt w') text → PutsCut out.old out.new (each_below count text) }
{
    for i in 0..count {
        put(i, out);
    }
}

// Puts the lines of the states, by number.
fn put_states(automaton: &Automaton, out: &mut Writer<'_>)
    ensures { PutsCut out.old out.new (call_lines (shown automaton.now).signs (grow_calls (shown automaton.now))) }
{
    put_each(automaton.state_count(), out, |state, out| {
        put_state(automaton, state, out)
    });
}

// Puts the line of an entry state, or nothing where the state is none.
fn put_entry(automaton: &Automaton, state: usize, out: &mut Writer<'_>)
    ensures { PutsCut out.old out.new (call_lines (shown automaton.now).signs (enter_call (shown automaton.now) state)) }
{
    if automaton.is_entry(state) {
        put_numbered(b'E', state, out);
    }
}

// Puts the lines of the entry states, by number.
fn put_entries(automaton: &Automaton, out: &mut Writer<'_>)
    ensures { PutsCut out.old out.new (call_lines (shown automaton.now).signs (enter_calls (shown automaton.now))) }
{
    put_each(automaton.state_count(), out, |state, out| {
        put_entry(automaton, state, out)
    });
}

// Puts the line of an arrow, or nothing where there is none.
fn put_arrow(automaton: &Automaton, arrow: Arrow, out: &mut Writer<'_>)
    requires { arrow.letter < letters (shown automaton.now) }
    ensures { PutsCut out.old out.new (call_lines (shown automaton.now).signs (link_call (shown automaton.now) arrow.from arrow.letter arrow.to)) }
{
    if automaton.has_arrow(arrow) {
        put_arrow_line(arrow.from, automaton.signs()[arrow.letter], arrow.to, out);
    }
}

// Puts the lines of the arrows from a state with a letter, by to-state.
fn put_ends(automaton: &Automaton, from: usize, letter: usize, out: &mut Writer<'_>)
    requires { letter < letters (shown automaton.now) }
    ensures { PutsCut out.old out.new (call_lines (shown automaton.now).signs (links_by (shown automaton.now) from letter)) }
{
    put_each(automaton.state_count(), out, |to, out| {
        put_arrow(automaton, Arrow { from, letter, to }, out)
    });
}

// Puts the lines of the arrows from a state, by letter.
fn put_arrows_from(automaton: &Automaton, from: usize, out: &mut Writer<'_>)
    ensures { PutsCut out.old out.new (call_lines (shown automaton.now).signs (links_from (shown automaton.now) from)) }
{
    put_each(automaton.signs().len(), out, |letter, out| {
        put_ends(automaton, from, letter, out)
    });
}

// Puts the lines of the arrows, by from-state.
fn put_arrows(automaton: &Automaton, out: &mut Writer<'_>)
    ensures { PutsCut out.old out.new (call_lines (shown automaton.now).signs (link_calls (shown automaton.now))) }
{
    put_each(automaton.state_count(), out, |from, out| {
        put_arrows_from(automaton, from, out)
    });
}

impl Written for AnyDraft {
    ghost text = { λ d. written (letter_of_draft d) (model_of d) };

    fn put(&self, out: &mut Writer<'_>) {
        let automaton = self.automaton();
        put_head(self.letter(), automaton.signs(), out);
        put_states(automaton, out);
        put_entries(automaton, out);
        put_arrows(automaton, out);
    }
}

// How many bytes the text of a draft has.
pub fn draft_len(draft: &AnyDraft) -> usize
    ensures { result ≡ length (written (letter_of_draft draft.now) (model_of draft.now)) }
{
    draft.written_len()
}

// Writes the text of a draft to the front of `out` and answers its length.
// Where `out` is too short, nothing is written.
pub fn write_draft(draft: &AnyDraft, out: &mut [u8]) -> Result<usize, WriteFault>
    ensures wrote { Wrote (written (letter_of_draft draft.now) (model_of draft.now)) out.old out.new result }
    ensures back { ReadsBack (letter_of_draft draft.now) (model_of draft.now) }
{
    draft.write(out)
}

impl Written for Refusal {
    ghost text = { refusal_line };

    fn put(&self, out: &mut Writer<'_>) {
        out.put_cut(b"X");
        Field(usize::from(self.number)).put(out);
        Field(self.line).put(out);
        Field(usize::from(self.field)).put(out);
        Field(usize::from(self.inner)).put(out);
        out.put_cut(b"\n");
    }
}

// How many bytes the line of a refusal has.
pub fn refusal_len(refusal: Refusal) -> usize
    ensures { result ≡ length (refusal_line refusal) }
{
    refusal.written_len()
}

// Writes the line of a refusal to the front of `out` and answers its length.
// Where `out` is too short, nothing is written.
pub fn write_refusal(refusal: Refusal, out: &mut [u8]) -> Result<usize, WriteFault>
    ensures { Wrote (refusal_line refusal) out.old out.new result }
{
    refusal.write(out)
}
