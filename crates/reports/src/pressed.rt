// What `press` prints of a text: the table of the draft, or the line of the refusal.
ghost use Rattle.std.specs.Prelude.{◌≡◌, length, IfOk};
ghost use Rattle.drafts.specs.Drawn.{drawn};
ghost use Rattle.views.specs.Accepted.{accepted};
ghost use Rattle.texts.specs.Any.{letter_of_draft, model_of};
ghost use Rattle.texts.specs.Grammar.{kind_of};
ghost use Rattle.reports.specs.Reports.{OnceCount, DraftPrints, Prints};

use crate::report::Report;
use crate::table_text::TableText;
use drafts::draft::Draft;
use kinds::kind::Kind;
use pressing::judging::first_told;
use pressing::once::once;
use pressing::press::press_draft;
use rolls::roll::Roll;
use rolls::state::State;
use std::alloc::{AllocError, Global};
use tables::table::Table;
use texts::any::AnyDraft;
use texts::faults::Refusal;
use texts::for_any_kind;
use texts::letters::KindLetter;
use texts::reading::read_draft;
use texts::tidying::{refusal_text, written_text};
use views::colouring::Colouring;
use views::states::Reached;

// How many entries each roll has.
pub const ROOM: usize = 128;

// How many states the one-way build of a draft has, where these entries have room for it.
fn once_count<K: Kind>(draft: &Draft<K>, sets: &mut [Reached]) -> Option<usize>
    ensures { OnceCount K.model (drawn draft.now) (accepted draft.now.automaton.signs) (length sets.old) result }
{
    let mut table = Table::<K>::blank(draft.automaton().sign_list());
    let mut roll = Roll::fresh(sets);
    once(draft, &mut table, &mut roll).ok()?;
    Some(table.grid().state_count())
}

// What is printed of a draft of any kind, under the letter of its kind, pressed and built in these entries.
fn press_in<K: Kind>(
    heap: Global,
    letter: KindLetter,
    draft: &Draft<K>,
    columns: &mut [Colouring],
    chart: &mut [Colouring],
    sets: &mut [Reached],
) -> Result<Vec<u8>, AllocError>
    requires columns { length columns.old ≡ length sets.old }
    requires chart { length chart.old ≡ length sets.old }
    ensures { IfOk result (λ v. DraftPrints K.model letter (drawn draft.now) (length sets.old) v.items) }
{
    let automaton = draft.automaton();
    let signs = automaton.sign_list();
    let mut back = Table::<K>::blank(signs);
    let mut last = Table::<K>::blank(signs);
    let mut columns = Roll::fresh(columns);
    let mut chart = Roll::fresh(chart);
    match press_draft(draft, &mut back, &mut columns, &mut last, &mut chart) {
        Ok(()) => {
            let report = Report {
                table: TableText {
                    letter,
                    grid: last.grid(),
                },
                backward_count: back.grid().state_count(),
                not_atomic: first_told::<K>(&columns, &chart, automaton.state_count()),
                forward_count: once_count(draft, sets),
            };
            written_text(heap, &report)
        }
        Err(fault) => refusal_text(heap, Refusal::plain(fault.number())),
    }
}

// The same in entries of its own.
pub fn press_text<K: Kind>(
    heap: Global,
    letter: KindLetter,
    draft: &Draft<K>,
) -> Result<Vec<u8>, AllocError>
    ensures { IfOk result (λ v. DraftPrints K.model letter (drawn draft.now) 128 v.items) }
{
    let mut columns = vec![in heap; Colouring::plain(0); ROOM]?;
    let mut chart = vec![in heap; Colouring::plain(0); ROOM]?;
    let mut sets = vec![in heap; Reached::default(); ROOM]?;
    press_in(
        heap,
        letter,
        draft,
        columns.as_mut_slice(),
        chart.as_mut_slice(),
        sets.as_mut_slice(),
    )
}

// The same of a draft of a kind that has a letter.
pub fn press_any(heap: Global, draft: &AnyDraft) -> Result<Vec<u8>, AllocError>
    ensures { IfOk result (λ v. DraftPrints (kind_of (letter_of_draft draft.now)) (letter_of_draft draft.now) (model_of draft.now) 128 v.items) }
{
    let letter = draft.letter();
    for_any_kind!(draft, draft => press_text(heap, letter, draft))
}

// What `press` prints of a text.
pub fn pressed(heap: Global, text: &[u8]) -> Result<Vec<u8>, AllocError>
    ensures { IfOk result (λ v. Prints text.now v.items) }
{
    match read_draft(text) {
        Ok(draft) => press_any(heap, &draft),
        Err(fault) => refusal_text(heap, fault.refusal()),
    }
}
