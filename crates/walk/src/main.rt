// Reads a draft text from standard input, builds its forward machine, and prints each state of the
// table as it is first reached: its number, its value, the first word that leads to it (`-` for the
// empty word), and its next states by letter.
#![tactic(auto)]

use drafts::draft::Draft;
use kinds::kind::Kind;
use machines::machine::Machine;
use rolls::roll::Roll;
use rolls::state::State;
use std::alloc::Global;
use std::io::{Read, Write};
use tables::grid::Grid;
use tables::grid::building::build;
use tables::table::Table;
use texts::faults::Refusal;
use texts::for_any_kind;
use texts::reading::read_draft;
use texts::writing::write_refusal;
use views::forward_draft::ForwardDraft;
use views::states::Reached;

// The first cell that holds a state, row by row: the row and the sign.
fn first_cell(grid: &Grid, state: usize) -> Option<(usize, u8)> {
    let signs = grid.signs();
    (0..grid.state_count()).find_map(|row| {
        signs
            .as_slice()
            .iter()
            .enumerate()
            .find(|(letter, _)| grid.next(row, *letter) == Some(state))
            .map(|(_, sign)| (row, *sign))
    })
}

// The first word that leads to a state, from those of the states before it.
fn first_word(
    heap: Global,
    grid: &Grid,
    words: &Vec<String>,
    state: usize,
) -> anyhow::Result<String> {
    let mut word = String::new(heap);
    if state > 0 {
        if let Some((row, sign)) = first_cell(grid, state) {
            word.push_str(words.get(row).map_or("", |before| before.as_str()))?;
            word.push(char::from(sign))?;
        }
    }
    Ok(word)
}

// One state's line.
fn print_row(rt: &HostRuntime, grid: &Grid, state: usize, word: &str) -> anyhow::Result<()> {
    let shown = if word.is_empty() { "-" } else { word };
    if let Some(value) = grid.value(state) {
        print!(rt; "{state}\t{value}\t{shown}")?;
        for next in (0..grid.signs().len()).filter_map(|letter| grid.next(state, letter)) {
            print!(rt; "\t{next}")?;
        }
        println!(rt; "")?;
    }
    Ok(())
}

fn print_rows(rt: &HostRuntime, grid: &Grid) -> anyhow::Result<()> {
    let mut words = Vec::new(rt.alloc());
    // counted: a line begins with the state's number
    for state in 0..grid.state_count() {
        let word = first_word(rt.alloc(), grid, &words, state)?;
        print_row(rt, grid, state, word.as_str())?;
        words.push(word)?;
    }
    Ok(())
}

// In `scan` too: no contract says what is printed, so it may not be a library's public function.
// Here without a heap, so that it is printed where no memory is left, too: no refusal's line has more than 86 bytes.
fn print_refusal(rt: &HostRuntime, refusal: Refusal) -> anyhow::Result<()> {
    let mut line = [0; 86];
    if let Ok(len) = write_refusal(refusal, &mut line) {
        rt.stdout().write_all(&line[..len])?;
    }
    Ok(())
}

fn walk<K: Kind>(rt: &HostRuntime, draft: &Draft<K>) -> anyhow::Result<()> {
    let machine = ForwardDraft { draft };
    let mut entries = vec![in rt.alloc(); Reached::default(); 128]?;
    let mut table = Table::<K>::blank(draft.automaton().sign_list());
    let mut roll = Roll::fresh(entries.as_mut_slice());
    match build(&machine, &mut table, &mut roll) {
        Ok(()) => print_rows(rt, table.grid()),
        Err(fault) => print_refusal(rt, Refusal::plain(fault.number())),
    }
}

fn main(rt: HostRuntime) -> anyhow::Result<()> {
    let mut text = Vec::new(rt.alloc());
    rt.stdin().read_to_end(&mut text)?;
    match read_draft(text.as_slice()) {
        Ok(draft) => for_any_kind!(draft, draft => walk(&rt, &draft)),
        Err(fault) => print_refusal(&rt, fault.refusal()),
    }
}
