ghost use Rattle.automata.specs.Sets.{no_states};
ghost use Rattle.drafts.specs.Drawn.{drawn};
ghost use Rattle.rolls.specs.Loans.{KeepsLoan};
ghost use Rattle.tables.specs.Builds.{Ended};
ghost use Rattle.views.specs.Accepted.{accepted};
ghost use Rattle.views.specs.DraftViews.{forward_draft_model};
ghost use Rattle.views.specs.Those.{reached_set};

use drafts::draft::Draft;
use kinds::kind::Kind;
use rolls::roll::Roll;
use tables::grid::building::{BuildFault, build};
use tables::table::Table;
use views::forward_draft::ForwardDraft;
use views::states::Reached;

// The one-way build: the sets of states that words reach in the draft. Refused where there are more
// than 128 of them, or more than the roll has entries.
pub fn once<K: Kind>(
    draft: &Draft<K>,
    table: &mut Table<K>,
    roll: &mut Roll<'_, Reached>,
) -> Result<(), BuildFault>
    ensures kept { KeepsLoan roll.old roll.new }
    ensures ended { Ended (forward_draft_model K.model (drawn draft.now) (accepted draft.now.automaton.signs)) (reached_set no_states) table.new.grid roll.new.entries.now roll.new.len result }
{
    build(&ForwardDraft { draft }, table, roll)
}
