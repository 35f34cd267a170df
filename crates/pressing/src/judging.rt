// Which states of a draft are atomic, from what a press leaves.
ghost use Rattle.std.specs.Prelude.{◌≡◌, ◌<◌, Decides};
ghost use Rattle.pressing.specs.Verdicts.{SameColumn, Tells, Judged, FirstTold};

use kinds::kind::Kind;
use rolls::roll::Roll;
use views::colouring::Colouring;

// What is found of a state of a draft. As an option, None would have to mean that the state is atomic.
#[derive(Clone, Copy, PartialEq, Eq, Debug)]
pub enum Verdict {
    Atomic,
    // the first pair of backward states that tells against it
    Told { low: usize, high: usize },
}

// Whether two columns of the chart are equal.
fn same_column<K: Kind>(chart: &Roll<'_, Colouring>, low: usize, high: usize) -> bool
    ensures { Decides result (SameColumn K.model chart.now.entries.now chart.now.len low high) }
{
    chart
        .as_slice()
        .iter()
        .all(|row| row.code::<K>(low) == row.code::<K>(high))
}

// Columns and chart stay two parameters: a struct of two references would be made anew at each call, and be no plainer.
// Whether two backward states tell against a state: their columns are equal and their codes there differ.
fn tells<K: Kind>(
    columns: &Roll<'_, Colouring>,
    chart: &Roll<'_, Colouring>,
    state: usize,
    low: usize,
    high: usize,
) -> bool
    requires low { low < columns.now.len }
    requires high { high < columns.now.len }
    ensures { Decides result (Tells K.model columns.now.entries.now chart.now.entries.now chart.now.len state low high) }
{
    let columns = columns.as_slice();
    columns[low].code::<K>(state) != columns[high].code::<K>(state)
        && same_column::<K>(chart, low, high)
}

// The verdict on a state, from what a press leaves: the first pair of backward states that tells
// against it, by the lower number and then the higher.
pub fn judge<K: Kind>(
    columns: &Roll<'_, Colouring>,
    chart: &Roll<'_, Colouring>,
    state: usize,
) -> Verdict
    ensures { Judged K.model columns.now.entries.now columns.now.len chart.now.entries.now chart.now.len state result }
{
    let count = columns.len();
    let mut verdict = Verdict::Atomic;
    // the numbers counted here are what the verdict holds
    'pairs: for low in 0..count {
        for high in low + 1..count {
            if tells::<K>(columns, chart, state, low, high) {
                verdict = Verdict::Told { low, high };
                break 'pairs;
            }
        }
    }
    verdict
}

// The first of the states below `count` that is not atomic.
pub fn first_told<K: Kind>(
    columns: &Roll<'_, Colouring>,
    chart: &Roll<'_, Colouring>,
    count: usize,
) -> Option<usize>
    ensures { FirstTold K.model columns.now.entries.now columns.now.len chart.now.entries.now chart.now.len count result }
{
    (0..count).find(|state| matches!(judge::<K>(columns, chart, *state), Verdict::Told { .. }))
}
