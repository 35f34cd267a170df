// Verdict: whether a state of a draft is atomic.
ghost use Rattle.drafts.specs.Drawn.{drawn};
ghost use Rattle.rolls.specs.Loans.{KeepsLoan};
ghost use Rattle.views.specs.Accepted.{accepted};
ghost use Rattle.pressing.specs.Pressed.{left_of};
ghost use Rattle.pressing.specs.Verdicts.{VerdictEnded, VerdictMeans};

use crate::faults::VerdictFault;
use crate::judging::{Verdict, judge};
use crate::press::press_draft;
use drafts::draft::Draft;
use kinds::kind::Kind;
use rolls::roll::Roll;
use tables::grid::building::wipe;
use tables::table::Table;
use views::colouring::Colouring;

// Presses a draft and judges one of its states. Where there is no such state, or the press is refused, both
// tables are blank, and both rolls empty and blank.
pub fn verdict<K: Kind>(
    draft: &Draft<K>,
    state: usize,
    back: &mut Table<K>,
    columns: &mut Roll<'_, Colouring>,
    last: &mut Table<K>,
    chart: &mut Roll<'_, Colouring>,
) -> Result<Verdict, VerdictFault>
    ensures columns_kept { KeepsLoan columns.old columns.new }
    ensures chart_kept { KeepsLoan chart.old chart.new }
    ensures ended { VerdictEnded K.model (drawn draft.now) (accepted draft.now.automaton.signs) state (left_of back.new columns.new) (left_of last.new chart.new) result }
    ensures means { VerdictMeans K.model (drawn draft.now) state result }
{
    let automaton = draft.automaton();
    if state >= automaton.state_count() {
        let signs = automaton.sign_list();
        wipe(signs, back, columns);
        wipe(signs, last, chart);
        return Err(VerdictFault::NoState);
    }
    press_draft(draft, back, columns, last, chart)?;
    Ok(judge::<K>(columns, chart, state))
}
