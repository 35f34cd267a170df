// Reads a draft from the file that its argument names and presses it, then reads entries from standard
// input, one to a line, and prints a line for each: its value, and its longest front part with a value.
#![tactic(auto)]

use anyhow::Context;
use drafts::draft::Draft;
use kinds::kind::Kind;
use pressing::press::press_draft;
use reports::pressed::ROOM;
use reports::scan_text::add_scan;
use rolls::roll::Roll;
use rolls::state::State;
use std::io::{BufRead, BufReader, Write};
use std::{env, fs};
use tables::table::Table;
use texts::faults::Refusal;
use texts::for_any_kind;
use texts::reading::read_draft;
use texts::tidying::refusal_text;
use views::colouring::Colouring;

// In `walk` too: no contract says what is printed, so it may not be a library's public function.
fn print_refusal(rt: &HostRuntime, refusal: Refusal) -> anyhow::Result<()> {
    let line = refusal_text(rt.alloc(), refusal)?;
    rt.stdout().write_all(line.as_slice())?;
    Ok(())
}

// Reads the entries through the table, a line at a time.
fn scan_entries<K: Kind>(rt: &HostRuntime, table: &Table<K>) -> anyhow::Result<()> {
    let entries = BufReader::new(rt.alloc(), rt.stdin())?.split(rt.alloc(), b'\n');
    for entry in entries {
        let entry = entry?;
        let mut line = Vec::new(rt.alloc());
        add_scan(&mut line, table, entry.as_slice())?;
        rt.stdout().write_all(line.as_slice())?;
    }
    Ok(())
}

fn scan<K: Kind>(rt: &HostRuntime, draft: &Draft<K>) -> anyhow::Result<()> {
    let signs = draft.automaton().sign_list();
    let mut columns = vec![in rt.alloc(); Colouring::plain(0); ROOM]?;
    let mut rows = vec![in rt.alloc(); Colouring::plain(0); ROOM]?;
    let mut back = Table::<K>::blank(signs);
    let mut last = Table::<K>::blank(signs);
    let pressed = press_draft(
        draft,
        &mut back,
        &mut Roll::fresh(columns.as_mut_slice()),
        &mut last,
        &mut Roll::fresh(rows.as_mut_slice()),
    );
    match pressed {
        Ok(()) => scan_entries(rt, &last),
        Err(fault) => print_refusal(rt, Refusal::plain(fault.number())),
    }
}

fn main(rt: HostRuntime) -> anyhow::Result<()> {
    let path = env::args(&rt)?
        .nth(1)
        .context("the name of a draft file is missing")?;
    let text = fs::read(&rt, path.as_str())?;
    match read_draft(text.as_slice()) {
        Ok(draft) => for_any_kind!(draft, draft => scan(&rt, &draft)),
        Err(fault) => print_refusal(&rt, fault.refusal()),
    }
}
