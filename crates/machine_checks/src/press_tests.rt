use crate::counter::Counter;
use automata::arrow::Arrow;
use automata::signs::Signs;
use drafts::draft::Draft;
use kinds::marks::M;
use kinds::yes_no::Y;
use machines::machine::Machine;
use pressing::faults::{PressFault, VerdictFault};
use pressing::judging::Verdict;
use pressing::once::once;
use pressing::press::{press_draft, press_machine};
use pressing::verdict::verdict;
use reports::pressed::pressed;
use rolls::roll::Roll;
use rolls::state::State;
use std::alloc::Global;
use std::process::Abort;
use std::test::Fail;
use tables::table::Table;
use texts::any::AnyDraft;
use texts::reading::read_draft;
use views::colouring::Colouring;
use views::states::Reached;
use views::table_machine::TableMachine;

// Whether `press` prints this of a text.
fn prints(
    rt: &(impl Abort + Alloc<A = Global>),
    text: &[u8],
    told: &[u8],
    note: &str,
) -> Result<(), Fail> {
    let out = pressed(rt.alloc(), text)?;
    assert!(rt; out.as_slice() == told, "{note}");
    Ok(())
}

#[test]
fn tables_of_small_drafts(rt: HostRuntime) -> Result<(), Fail> {
    prints(
        &rt,
        b"D\tY\tab\n",
        b"T\tY\tab\t1\n0\t0\t0\t0\nV\t1\tA\t-\t1\n",
        "no state",
    )?;
    prints(
        &rt,
        b"D\tR\tab\nS\t0\nS\t3\nS\t0\nS\t7\nE\t0\nL\t0\ta\t1\nL\t1\ta\t1\nL\t0\tb\t2\nL\t2\ta\t3\nL\t3\ta\t3\n",
        b"T\tR\tab\t5\n0\t0\t1\t2\n1\t3\t1\t3\n2\t0\t4\t3\n3\t0\t3\t3\n4\t7\t4\t3\nV\t4\tA\t-\t5\n",
        "two values that both accept stay apart",
    )?;
    prints(
        &rt,
        b"D\tY\tab\nS\t0\nS\t1\nS\t0\nS\t1\nE\t0\nL\t0\ta\t1\nL\t1\ta\t1\nL\t0\tb\t2\nL\t2\ta\t3\nL\t3\ta\t3\n",
        b"T\tY\tab\t4\n0\t0\t1\t2\n1\t1\t1\t3\n2\t0\t1\t3\n3\t0\t3\t3\nV\t4\tA\t-\t5\n",
        "one value joins them",
    )?;
    prints(
        &rt,
        b"D\tM\tab\nS\t1\nS\t2\nE\t0\nE\t1\nL\t0\ta\t0\nL\t1\ta\t1\nL\t1\tb\t1\n",
        b"T\tM\tab\t2\n0\t3\t0\t1\n1\t2\t1\t1\nV\t2\tA\t-\t2\n",
        "the join of both entry states",
    )?;
    prints(
        &rt,
        b"D\tY\tab\nS\t1\n",
        b"T\tY\tab\t1\n0\t0\t0\t0\nV\t2\tN\t0\t1\n",
        "no entry",
    )
}

#[test]
fn a_text_that_is_no_draft(rt: HostRuntime) -> Result<(), Fail> {
    prints(&rt, b"", b"X\t21\t0\t0\t0\n", "an empty text")?;
    prints(
        &rt,
        b"D\tY\tab\nS\t07\n",
        b"X\t24\t2\t2\t3\n",
        "a value with a zero in front",
    )?;
    prints(
        &rt,
        b"D\tY\tab\nE\t0\n",
        b"X\t25\t2\t0\t3\n",
        "an entry that is no state",
    )
}

// Adds the lines of this many states with value 0, one with value 1, and state 0 as the entry.
fn add_states(text: &mut String, count: u8) -> Result<(), Fail> {
    for _ in 0..count {
        writeln!(text, "S\t0")?;
    }
    writeln!(text, "S\t1\nE\t0")?;
    Ok(())
}

// Adds the line of an arrow with this sign.
fn add_arrow(text: &mut String, from: u8, sign: char, to: u8) -> Result<(), Fail> {
    writeln!(text, "L\t{from}\t{sign}\t{to}")?;
    Ok(())
}

// Adds the lines of the arrows with either sign.
fn add_arrows(text: &mut String, from: u8, to: u8) -> Result<(), Fail> {
    add_arrow(text, from, 'a', to)?;
    add_arrow(text, from, 'b', to)
}

// The draft of the words whose letter `n` from the end is a.
fn from_end(heap: Global, n: u8) -> Result<String, Fail> {
    let mut text = format!(in heap; "D\tY\tab\n")?;
    add_states(&mut text, n)?;
    add_arrows(&mut text, 0, 0)?;
    add_arrow(&mut text, 0, 'a', 1)?;
    for p in 1..n {
        add_arrows(&mut text, p, p + 1)?;
    }
    Ok(text)
}

// The draft of the words whose letter `n` from the front is a.
fn from_front(heap: Global, n: u8) -> Result<String, Fail> {
    let mut text = format!(in heap; "D\tY\tab\n")?;
    add_states(&mut text, n)?;
    for p in 1..n {
        add_arrows(&mut text, p - 1, p)?;
    }
    add_arrow(&mut text, n.saturating_sub(1), 'a', n)?;
    add_arrows(&mut text, n, n)?;
    Ok(text)
}

// How many states the one-way build of a draft has.
fn forward_count(draft: &Draft<Y>) -> Option<usize> {
    let mut sets = [Reached::default(); 128];
    let mut table = Table::<Y>::blank(draft.automaton().sign_list());
    once(draft, &mut table, &mut Roll::fresh(&mut sets))
        .ok()
        .map(|()| table.grid().state_count())
}

#[test]
fn tables_at_their_edge(rt: HostRuntime) -> Result<(), Fail> {
    let seven = from_end(rt.alloc(), 7)?;
    let out = pressed(rt.alloc(), seven.as_bytes())?;
    assert!(rt; out.as_slice().starts_with(b"T\tY\tab\t128\n"));
    assert!(rt; out.as_slice().ends_with(b"V\t9\tA\t-\t128\n"));
    let eight = from_end(rt.alloc(), 8)?;
    prints(
        &rt,
        eight.as_bytes(),
        b"X\t11\t0\t0\t0\n",
        "256 states of the last table",
    )?;
    let front = from_front(rt.alloc(), 7)?;
    let out = pressed(rt.alloc(), front.as_bytes())?;
    assert!(rt; out.as_slice().starts_with(b"T\tY\tab\t9\n"));
    assert!(rt; out.as_slice().ends_with(b"V\t128\tA\t-\t9\n"));
    let front = from_front(rt.alloc(), 8)?;
    prints(
        &rt,
        front.as_bytes(),
        b"X\t10\t0\t0\t0\n",
        "more than 128 states of the backward table",
    )?;
    let count = match read_draft(front.as_bytes())? {
        AnyDraft::OfY(draft) => forward_count(&draft),
        _ => None,
    };
    assert_eq!(rt; count, Some(10), "the table would be small");
    Ok(())
}

// The answer of a press of a counter, in this many entries for its states and 128 for each other roll.
fn counted(signs: Signs, limit: u64, room: usize) -> Result<usize, PressFault> {
    let mut states = [9u64; 200];
    let mut columns = [Colouring::plain(9); 128];
    let mut rows = [Colouring::plain(9); 128];
    let mut first = Table::<Y>::blank(signs);
    let mut back = Table::<Y>::blank(signs);
    let mut last = Table::<Y>::blank(signs);
    press_machine(
        &Counter { signs, limit },
        &mut first,
        &mut Roll::fresh(&mut states[..room.min(200)]),
        &mut back,
        &mut Roll::fresh(&mut columns),
        &mut last,
        &mut Roll::fresh(&mut rows),
    )?;
    Ok(last.grid().state_count())
}

#[test]
fn machines_are_pressed(rt: HostRuntime) -> Result<(), Fail> {
    let signs = Signs::new(b"ab")?;
    assert_eq!(rt; counted(signs, 2, 200), Ok(3));
    assert_eq!(rt; counted(signs, 0, 1), Ok(1));
    assert_eq!(rt; counted(signs, 127, 200), Ok(128));
    assert_eq!(rt; counted(signs, 128, 200), Err(PressFault::First));
    assert_eq!(rt; counted(signs, 2, 2), Err(PressFault::First));
    assert_eq!(rt; PressFault::First.number(), 9);
    assert_eq!(rt; PressFault::Backward.number(), 10);
    assert_eq!(rt; PressFault::Last.number(), 11);
    Ok(())
}

// Two entry states with the marks 1 and 2, and an arrow by a back to each.
fn marked() -> Result<Draft<M>, Fail> {
    let mut draft = Draft::<M>::open(b"ab")?;
    draft.grow(1)?;
    draft.grow(2)?;
    draft.enter(0)?;
    draft.enter(1)?;
    for (from, letter, to) in [(0, 0, 0), (1, 0, 1), (1, 1, 1)] {
        draft.link(Arrow { from, letter, to })?;
    }
    Ok(draft)
}

#[test]
fn a_refused_press_leaves_nothing(rt: HostRuntime) -> Result<(), Fail> {
    let draft = marked()?;
    let signs = draft.automaton().sign_list();
    let mut back = Table::<M>::blank(signs);
    let mut last = Table::<M>::blank(signs);
    let mut columns = [Colouring::plain(9); 3];
    let mut rows = [Colouring::plain(9); 1];
    let mut columns_roll = Roll::fresh(&mut columns);
    let mut chart = Roll::fresh(&mut rows);
    assert_eq!(rt;
        press_draft(&draft, &mut back, &mut columns_roll, &mut last, &mut chart),
        Err(PressFault::Last)
    );
    assert_eq!(rt; columns_roll.len(), 0);
    assert_eq!(rt; chart.len(), 0);
    assert_eq!(rt; back.grid().state_count(), 1);
    assert_eq!(rt; back.grid().value(0), Some(0));
    assert_eq!(rt; last.grid().state_count(), 1);
    assert!(rt;
        columns[0].codes == [0; 128] && columns[1].codes == [0; 128] && columns[2].codes == [0; 128]
    );
    assert!(rt; rows[0].codes == [0; 128]);
    Ok(())
}

#[test]
fn a_draft_and_its_table_are_pressed_to_one_table(rt: HostRuntime) -> Result<(), Fail> {
    let draft = marked()?;
    let signs = draft.automaton().sign_list();
    let mut columns = [Colouring::plain(9); 8];
    let mut rows = [Colouring::plain(9); 8];
    let mut back = Table::<M>::blank(signs);
    let mut last = Table::<M>::blank(signs);
    let mut columns_roll = Roll::fresh(&mut columns);
    let mut chart = Roll::fresh(&mut rows);
    assert!(rt; press_draft(&draft, &mut back, &mut columns_roll, &mut last, &mut chart).is_ok());
    assert_eq!(rt; back.grid().state_count(), 2);
    assert_eq!(rt; last.grid().state_count(), 2);
    let mut sets = [Reached::default(); 8];
    let mut forward = Table::<M>::blank(signs);
    assert!(rt; once(&draft, &mut forward, &mut Roll::fresh(&mut sets)).is_ok());
    assert_eq!(rt; forward.grid().state_count(), 2);
    let mut numbers = [9usize; 8];
    let mut first = Table::<M>::blank(signs);
    let mut again = Table::<M>::blank(signs);
    let machine = TableMachine { table: &forward };
    let mut states = Roll::fresh(&mut numbers);
    assert!(rt;
        press_machine(
            &machine,
            &mut first,
            &mut states,
            &mut back,
            &mut columns_roll,
            &mut again,
            &mut chart,
        )
        .is_ok()
    );
    assert_eq!(rt; again.grid().state_count(), 2);
    for state in 0..2usize {
        assert_eq!(rt; again.grid().value(state), last.grid().value(state));
        assert_eq!(rt; again.grid().next(state, 0), last.grid().next(state, 0));
        assert_eq!(rt; again.grid().next(state, 1), last.grid().next(state, 1));
    }
    assert!(rt; chart.get(1).is_some());
    Ok(())
}

// The draft of the first program run: state 1 is not atomic, and state 2 is.
fn told() -> Result<Draft<Y>, Fail> {
    let mut draft = Draft::<Y>::open(b"ab")?;
    draft.grow(0)?;
    draft.grow(1)?;
    draft.grow(1)?;
    draft.grow(1)?;
    draft.enter(0)?;
    for (from, letter, to) in [
        (0, 0, 1),
        (0, 0, 2),
        (1, 0, 3),
        (2, 1, 3),
        (3, 0, 3),
        (3, 1, 3),
    ] {
        draft.link(Arrow { from, letter, to })?;
    }
    Ok(draft)
}

// The verdict on a state of a draft, with this many entries for the backward states.
fn judged(draft: &Draft<Y>, state: usize, room: usize) -> Result<Verdict, VerdictFault> {
    let signs = draft.automaton().sign_list();
    let mut columns = [Colouring::plain(9); 8];
    let mut rows = [Colouring::plain(9); 8];
    let mut back = Table::<Y>::blank(signs);
    let mut last = Table::<Y>::blank(signs);
    let mut columns_roll = Roll::fresh(&mut columns[..room.min(8)]);
    let mut chart = Roll::fresh(&mut rows);
    verdict(
        draft,
        state,
        &mut back,
        &mut columns_roll,
        &mut last,
        &mut chart,
    )
}

#[test]
fn verdicts_on_states(rt: HostRuntime) -> Result<(), Fail> {
    let draft = told()?;
    assert_eq!(rt; judged(&draft, 0, 8), Ok(Verdict::Atomic));
    assert_eq!(rt; judged(&draft, 1, 8), Ok(Verdict::Told { low: 0, high: 2 }));
    assert_eq!(rt; judged(&draft, 2, 8), Ok(Verdict::Atomic));
    assert_eq!(rt; judged(&draft, 4, 8), Err(VerdictFault::NoState));
    assert_eq!(rt;
        judged(&draft, 4, 0),
        Err(VerdictFault::NoState),
        "asked before the press"
    );
    assert_eq!(rt;
        judged(&draft, 3, 2),
        Err(VerdictFault::Press(PressFault::Backward))
    );
    assert_eq!(rt; VerdictFault::NoState.number(), 3);
    assert_eq!(rt; VerdictFault::Press(PressFault::Last).number(), 11);
    Ok(())
}
