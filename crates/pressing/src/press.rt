// Press: the smallest table, by reading backward twice.
ghost use Rattle.drafts.specs.Drawn.{drawn};
ghost use Rattle.rolls.specs.Loans.{KeepsLoan};
ghost use Rattle.views.specs.Accepted.{accepted};
ghost use Rattle.pressing.specs.Pressed.{left_of, TwiceEnded, DraftEnded, MachineEnded, DraftSays, MachineSays};

use crate::faults::PressFault;
use drafts::draft::Draft;
use kinds::kind::Kind;
use machines::machine::Machine;
use rolls::roll::Roll;
use tables::grid::building::{build, wipe};
use tables::table::Table;
use views::backward_draft::BackwardDraft;
use views::backward_table::BackwardTable;
use views::colouring::Colouring;

// Table and roll stay two parameters: with the roll inside a struct (tried), no proof of a caller gets back the entries
// that it lent.
// Builds the machine, and then its table as it is read backward.
fn build_twice<M: Machine>(
    machine: &M,
    table: &mut Table<M::Kind>,
    roll: &mut Roll<'_, M::State>,
    last: &mut Table<M::Kind>,
    chart: &mut Roll<'_, Colouring>,
) -> Result<(), PressFault>
    ensures roll_kept { KeepsLoan roll.old roll.new }
    ensures chart_kept { KeepsLoan chart.old chart.new }
    ensures ended { TwiceEnded (M.meaning machine.now) M.State.State.blank (left_of table.new roll.new) (left_of last.new chart.new) result }
{
    let signs = machine.signs();
    // tried: map_err with the wipe in it; the proof did not close, for nothing is known of what the closure changed
    let Ok(()) = build(machine, table, roll) else {
        wipe(signs, last, chart);
        return Err(PressFault::Backward);
    };
    let Ok(()) = build(&BackwardTable { table }, last, chart) else {
        wipe(signs, table, roll);
        return Err(PressFault::Last);
    };
    Ok(())
}

// Presses a draft: the draft is built as it is read backward, and the table of that, read backward
// again, is the last table: the smallest that says what the draft says. `columns` lists the backward
// states, and `chart` those of the last table: row i, column j of the chart is code j of last state i.
// Where a build has no room, both tables are blank, and both rolls empty and blank.
pub fn press_draft<K: Kind>(
    draft: &Draft<K>,
    back: &mut Table<K>,
    columns: &mut Roll<'_, Colouring>,
    last: &mut Table<K>,
    chart: &mut Roll<'_, Colouring>,
) -> Result<(), PressFault>
    ensures columns_kept { KeepsLoan columns.old columns.new }
    ensures chart_kept { KeepsLoan chart.old chart.new }
    ensures ended { DraftEnded K.model (drawn draft.now) (accepted draft.now.automaton.signs) (left_of back.new columns.new) (left_of last.new chart.new) result }
    ensures says { DraftSays K.model (drawn draft.now) last.new.grid result }
{
    build_twice(&BackwardDraft { draft }, back, columns, last, chart)
}

// Presses a machine: it is built first, and its table is then read backward twice. `states` lists the
// states of the machine. Where a build has no room, all tables are blank, and all rolls empty and blank.
pub fn press_machine<M: Machine>(
    machine: &M,
    first: &mut Table<M::Kind>,
    states: &mut Roll<'_, M::State>,
    back: &mut Table<M::Kind>,
    columns: &mut Roll<'_, Colouring>,
    last: &mut Table<M::Kind>,
    chart: &mut Roll<'_, Colouring>,
) -> Result<(), PressFault>
    ensures states_kept { KeepsLoan states.old states.new }
    ensures columns_kept { KeepsLoan columns.old columns.new }
    ensures chart_kept { KeepsLoan chart.old chart.new }
    ensures ended { MachineEnded (M.meaning machine.now) M.State.State.blank (left_of first.new states.new) (left_of back.new columns.new) (left_of last.new chart.new) result }
    ensures says { MachineSays (M.meaning machine.now) last.new.grid result }
{
    let signs = machine.signs();
    let Ok(()) = build(machine, first, states) else {
        wipe(signs, back, columns);
        wipe(signs, last, chart);
        return Err(PressFault::First);
    };
    let machine = BackwardTable { table: first };
    if let Err(fault) = build_twice(&machine, back, columns, last, chart) {
        wipe(signs, first, states);
        return Err(fault);
    }
    Ok(())
}
