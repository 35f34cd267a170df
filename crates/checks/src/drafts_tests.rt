ghost use Rattle.std.specs.Prelude.{◌≡◌};

use crate::further::Gaps;
use automata::arrow::Arrow;
use automata::faults::SignFault;
use drafts::calls::{Answer, Call};
use drafts::draft::Draft;
use drafts::faults::CallFault;
use kinds::marks::M;
use kinds::rank::R;
use kinds::yes_no::Y;
use std::test::Fail;

// The fault of opening with these signs.
fn fault(signs: &[u8]) -> Option<SignFault> {
    Draft::<Y>::open(signs).err()
}

fn arrow(from: usize, letter: usize, to: usize) -> Arrow
    ensures { result ≡ record { from = from; letter = letter; to = to } }
{
    Arrow { from, letter, to }
}

#[test]
fn signs_at_their_edges(rt: HostRuntime) {
    assert_eq!(rt; fault(b""), Some(SignFault::Count));
    assert_eq!(rt; fault(b"abcdefghijklmnop"), None);
    assert_eq!(rt; fault(b"abcdefghijklmnopq"), Some(SignFault::Count));
    assert_eq!(rt; fault(b"!~"), None);
    assert_eq!(rt; fault(b" "), Some(SignFault::Byte));
    assert_eq!(rt; fault(b"\x7f"), Some(SignFault::Byte));
    assert_eq!(rt; fault(b"aba"), Some(SignFault::Byte));
    assert_eq!(rt; SignFault::Count.number(), 1);
    assert_eq!(rt; SignFault::Byte.number(), 2);
}

#[test]
fn states_at_their_edge(rt: HostRuntime) -> Result<(), Fail> {
    let mut draft = Draft::<R>::open(b"ab")?;
    for i in 0..32usize {
        assert_eq!(rt; draft.grow(255), Ok(i));
    }
    assert_eq!(rt; draft.grow(0), Err(CallFault::Full));
    assert_eq!(rt; draft.automaton().state_count(), 32);
    assert_eq!(rt; draft.link(arrow(31, 1, 31)), Ok(()));
    assert_eq!(rt; draft.link(arrow(31, 1, 32)), Err(CallFault::NoState));
    assert_eq!(rt; draft.link(arrow(31, 2, 31)), Err(CallFault::NoLetter));
    assert!(rt; draft.automaton().has_arrow(arrow(31, 1, 31)));
    Ok(())
}

#[test]
fn each_question_in_its_order(rt: HostRuntime) -> Result<(), Fail> {
    let mut draft = Draft::<Y>::open(b"ab")?;
    assert_eq!(rt; draft.grow(2), Err(CallFault::NotAdmitted));
    assert_eq!(rt; draft.grow(1), Ok(0));
    assert_eq!(rt; draft.rate(1, 2), Err(CallFault::NoState));
    assert_eq!(rt; draft.rate(0, 2), Err(CallFault::NotAdmitted));
    assert_eq!(rt; draft.rate(0, 0), Ok(()));
    assert_eq!(rt; draft.automaton().code(0), Some(0));
    assert_eq!(rt; draft.enter(1), Err(CallFault::NoState));
    assert_eq!(rt; draft.leave(0), Err(CallFault::Absent));
    assert_eq!(rt; draft.enter(0), Ok(()));
    assert_eq!(rt; draft.enter(0), Err(CallFault::Present));
    assert_eq!(rt; draft.leave(0), Ok(()));
    assert_eq!(rt; draft.link(arrow(7, 7, 0)), Err(CallFault::NoState));
    assert_eq!(rt; draft.unlink(arrow(0, 1, 0)), Err(CallFault::Absent));
    assert_eq!(rt; draft.link(arrow(0, 1, 0)), Ok(()));
    assert_eq!(rt; draft.link(arrow(0, 1, 0)), Err(CallFault::Present));
    assert_eq!(rt; draft.unlink(arrow(0, 1, 0)), Ok(()));
    assert!(rt; !draft.automaton().has_arrow(arrow(0, 1, 0)));
    Ok(())
}

#[test]
fn a_list_of_calls(rt: HostRuntime) -> Result<(), Fail> {
    let mut draft = Draft::<M>::open(b"x")?;
    let calls = [
        Call::Enter(0),
        Call::Grow(5),
        Call::Enter(0),
        Call::Link(arrow(0, 0, 0)),
        Call::Rate { state: 0, value: 9 },
        Call::Unlink(arrow(0, 0, 0)),
        Call::Leave(0),
        Call::Leave(0),
    ];
    let answers = draft.apply_all(rt.alloc(), &calls)?;
    assert!(rt; answers.len() == 8);
    assert_eq!(rt; answers[0], Err(CallFault::NoState));
    assert_eq!(rt; answers[1], Ok(Answer::State(0)));
    assert_eq!(rt; answers[2], Ok(Answer::Done));
    assert_eq!(rt; answers[6], Ok(Answer::Done));
    assert_eq!(rt; answers[7], Err(CallFault::Absent));
    assert_eq!(rt; draft.automaton().code(0), Some(9));
    assert!(rt; !draft.automaton().is_entry(0));
    Ok(())
}

#[test]
fn a_draft_of_a_further_kind(rt: HostRuntime) -> Result<(), Fail> {
    let mut draft = Draft::<Gaps>::open(b"z")?;
    assert_eq!(rt; draft.grow(1), Err(CallFault::NotAdmitted));
    assert_eq!(rt; draft.grow(7), Ok(0));
    Ok(())
}
