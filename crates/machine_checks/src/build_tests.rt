use crate::counter::Counter;
use automata::signs::Signs;
use kinds::yes_no::Y;
use machines::machine::Machine;
use rolls::fault::RollFault;
use rolls::roll::Roll;
use rolls::state::State;
use std::test::Fail;
use tables::grid::building::build;
use tables::table::Table;

// How many states the table of a counter has, where it is built into this many entries.
fn built(signs: Signs, limit: u64, room: usize) -> Option<usize> {
    let mut entries = [9u64; 200];
    let mut table = Table::<Y>::blank(signs);
    let mut roll = Roll::fresh(&mut entries[..room.min(200)]);
    build(&Counter { signs, limit }, &mut table, &mut roll)
        .ok()
        .map(|()| table.grid().state_count())
}

#[test]
fn states_and_entries_at_their_edges(rt: HostRuntime) -> Result<(), Fail> {
    let signs = Signs::new(b"ab")?;
    assert_eq!(rt; built(signs, 127, 128), Some(128));
    assert_eq!(rt; built(signs, 127, 200), Some(128));
    assert_eq!(rt; built(signs, 127, 127), None);
    assert_eq!(rt; built(signs, 128, 200), None);
    assert_eq!(rt; built(signs, 0, 0), None);
    assert_eq!(rt; built(signs, 0, 1), Some(1));
    assert_eq!(rt; built(signs, 4, 4), None);
    assert_eq!(rt; built(signs, 4, 5), Some(5));
    assert_eq!(rt; built(signs, u64::MAX, 200), None);
    Ok(())
}

#[test]
fn rows_of_a_counter(rt: HostRuntime) -> Result<(), Fail> {
    let signs = Signs::new(b"ab")?;
    let machine = Counter { signs, limit: 2 };
    let mut entries = [9u64; 5];
    let mut table = Table::<Y>::blank(signs);
    let mut roll = Roll::fresh(&mut entries);
    assert!(rt; build(&machine, &mut table, &mut roll).is_ok());
    let grid = table.grid();
    assert_eq!(rt; grid.value(1), Some(1));
    assert_eq!(rt; grid.value(3), None);
    assert_eq!(rt; grid.next(0, 0), Some(1));
    assert_eq!(rt; grid.next(0, 1), Some(1));
    assert_eq!(rt; grid.next(2, 0), Some(2));
    assert_eq!(rt; grid.next(0, 2), None);
    assert_eq!(rt; machine.step(&1, 2), 1, "a letter past the signs");
    assert!(rt; entries == [0, 1, 2, 0, 0]);
    Ok(())
}

#[test]
fn a_roll_keeps_different_entries(rt: HostRuntime) {
    let mut entries = [4u64; 3];
    let mut roll = Roll::fresh(&mut entries);
    assert_eq!(rt; roll.place(7), Ok(0));
    assert_eq!(rt; roll.place(9), Ok(1));
    assert_eq!(rt; roll.place(7), Ok(0));
    assert_eq!(rt; roll.place(5), Ok(2));
    assert_eq!(rt; roll.place(8), Err(RollFault::Full));
    assert_eq!(rt; roll.len(), 3);
    assert_eq!(rt; RollFault::Full.number(), 16);
    assert!(rt; entries == [7, 9, 5]);
}
