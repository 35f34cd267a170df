use std::alloc::Global;
use std::process::Abort;
use std::test::Fail;
use texts::faults::{Refusal, TextFault};
use texts::reading::read_draft;

// What is told of a text that is no draft.
fn told(text: &[u8]) -> Option<Refusal> {
    read_draft(text).err().map(TextFault::refusal)
}

fn refusal(number: u8, line: usize, field: u8, inner: u8) -> Option<Refusal> {
    Some(Refusal {
        number,
        line,
        field,
        inner,
    })
}

// That each text is told as it stands beside it.
fn each_is_told(rt: &impl Abort, cases: &[(&[u8], Option<Refusal>)]) {
    for (text, refusal) in cases {
        assert_eq!(rt; told(text), *refusal, "{text:?}");
    }
}

#[test]
fn whole_texts(rt: HostRuntime) {
    each_is_told(
        &rt,
        &[
            (b"", refusal(21, 0, 0, 0)),
            (b"D\tY\tab", refusal(21, 0, 0, 0)),
            (b"D\tY\tab\n", None),
            (b"D\tR\tab\nS\t255\nS\t0\nE\t1\nL\t0\tb\t1\n", None),
            (b"D\tM\tab\nS\t3\n", None),
        ],
    )
}

#[test]
fn record_letters(rt: HostRuntime) {
    each_is_told(
        &rt,
        &[
            (b"\n", refusal(22, 1, 1, 0)),
            (b"D\n", refusal(22, 1, 1, 0)),
            (b"D Y ab\n", refusal(22, 1, 1, 0)),
            (b"S\t1\n", refusal(22, 1, 1, 0)),
            (b"D\tY\tab\nD\tY\tab\n", refusal(22, 2, 1, 0)),
            (b"D\tY\tab\nS\t1\n\n", refusal(22, 3, 1, 0)),
            (b"D\tY\tab\nX\t1\n", refusal(22, 2, 1, 0)),
        ],
    )
}

#[test]
fn numbers_of_fields(rt: HostRuntime) {
    each_is_told(
        &rt,
        &[
            (b"D\tY\n", refusal(23, 1, 0, 0)),
            (b"D\tY\tab\t\n", refusal(23, 1, 0, 0)),
            // the count before the fields
            (b"D\tQ\tab\tc\n", refusal(23, 1, 0, 0)),
            (b"D\tY\tab\nS\t1\t1\n", refusal(23, 2, 0, 0)),
            (b"D\tY\tab\nE\t0\t0\n", refusal(23, 2, 0, 0)),
            (b"D\tY\tab\nL\t0\ta\n", refusal(23, 2, 0, 0)),
            (b"D\tY\tab\nL\t0\ta\t0\t0\n", refusal(23, 2, 0, 0)),
        ],
    )
}

#[test]
fn fields(rt: HostRuntime) {
    each_is_told(
        &rt,
        &[
            (b"D\tQ\tab\n", refusal(24, 1, 2, 5)),
            (b"D\tYY\tab\n", refusal(24, 1, 2, 5)),
            (b"D\t\tab\n", refusal(24, 1, 2, 5)),
            (b"D\tR\tab\nS\t\n", refusal(24, 2, 2, 1)),
            (b"D\tR\tab\nS\t0x\n", refusal(24, 2, 2, 2)),
            (b"D\tR\tab\nS\t+1\n", refusal(24, 2, 2, 2)),
            (b"D\tR\tab\nS\t07\n", refusal(24, 2, 2, 3)),
            (b"D\tR\tab\nS\t00\n", refusal(24, 2, 2, 3)),
            (b"D\tR\tab\nS\t255\n", None),
            (b"D\tR\tab\nS\t256\n", refusal(24, 2, 2, 4)),
            (
                b"D\tR\tab\nS\t99999999999999999999999\n",
                refusal(24, 2, 2, 4),
            ),
        ],
    )
}

#[test]
fn fields_of_arrows(rt: HostRuntime) {
    each_is_told(
        &rt,
        &[
            (b"D\tR\tab\nE\t256\n", refusal(24, 2, 2, 4)),
            (b"D\tR\tab\nL\tx\tq\tx\n", refusal(24, 2, 2, 2)),
            (b"D\tR\tab\nL\t0\tq\tx\n", refusal(24, 2, 3, 5)),
            (b"D\tR\tab\nL\t0\t\t0\n", refusal(24, 2, 3, 5)),
            (b"D\tR\tab\nL\t0\tab\t0\n", refusal(24, 2, 3, 5)),
            (b"D\tR\tab\nL\t0\ta\t01\n", refusal(24, 2, 4, 3)),
        ],
    )
}

#[test]
fn what_the_draft_refuses(rt: HostRuntime) {
    each_is_told(
        &rt,
        &[
            (b"D\tY\t\n", refusal(25, 1, 0, 1)),
            (b"D\tY\tabcdefghijklmnop\n", None),
            (b"D\tY\tabcdefghijklmnopq\n", refusal(25, 1, 0, 1)),
            (b"D\tY\taa\n", refusal(25, 1, 0, 2)),
            (b"D\tY\ta b\n", refusal(25, 1, 0, 2)),
            (b"D\tY\tab\nS\t2\n", refusal(25, 2, 0, 5)),
            (b"D\tY\tab\nE\t0\n", refusal(25, 2, 0, 3)),
            (b"D\tY\tab\nS\t1\nE\t0\nE\t0\n", refusal(25, 4, 0, 7)),
            (b"D\tY\tab\nS\t1\nL\t0\ta\t1\n", refusal(25, 3, 0, 3)),
            (
                b"D\tY\tab\nS\t1\nL\t0\ta\t0\nL\t0\ta\t0\n",
                refusal(25, 4, 0, 7),
            ),
        ],
    )
}

// A draft text with this many states.
fn states(heap: Global, count: usize) -> Result<Vec<u8>, Fail> {
    let mut text = b"D\tR\tab\n".to_vec(heap)?;
    for _ in 0..count {
        text.extend_from_slice(b"S\t9\n")?;
    }
    Ok(text)
}

#[test]
fn states_at_their_edge(rt: HostRuntime) -> Result<(), Fail> {
    assert_eq!(rt; told(states(rt.alloc(), 32)?.as_slice()), None);
    assert_eq!(rt;
        told(states(rt.alloc(), 33)?.as_slice()),
        refusal(25, 34, 0, 6)
    );
    Ok(())
}

#[test]
fn bytes_at_their_edge(rt: HostRuntime) -> Result<(), Fail> {
    let mut text = b"D\tY\ta\n".to_vec(rt.alloc())?;
    text.resize(32767, b'S')?;
    assert_eq!(rt; text.len(), 32767);
    assert_eq!(rt; told(text.as_slice()), refusal(21, 0, 0, 0));
    text.push(b'\n')?;
    assert_eq!(rt; told(text.as_slice()), refusal(22, 2, 1, 0));
    text.push(b'\n')?;
    assert_eq!(rt; told(text.as_slice()), refusal(20, 0, 0, 0));
    Ok(())
}
