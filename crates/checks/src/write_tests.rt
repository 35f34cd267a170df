use std::test::Fail;
use texts::reading::read_draft;
use texts::tidying::tidied;
use texts::writing::{WriteFault, draft_len, write_draft};

static TEXT: [u8; 24] = *b"D\tM\txy\nS\t200\nE\t0\nL\t0\ty\t0";

#[test]
fn writes_within_its_text(rt: HostRuntime) -> Result<(), Fail> {
    let mut text = TEXT.to_vec(rt.alloc())?;
    text.push(b'\n')?;
    let draft = read_draft(text.as_slice())?;
    assert_eq!(rt; draft_len(&draft), 25);
    let mut short = [7u8; 24];
    assert_eq!(rt; write_draft(&draft, &mut short), Err(WriteFault::NoRoom));
    assert!(rt; short == [7u8; 24]);
    let mut long = [7u8; 27];
    assert_eq!(rt; write_draft(&draft, &mut long), Ok(25));
    assert!(rt; &long[0..25] == text.as_slice());
    assert!(rt; long[25] == 7 && long[26] == 7);
    assert_eq!(rt; WriteFault::NoRoom.number(), 26);
    Ok(())
}

#[test]
fn tells_a_refusal(rt: HostRuntime) -> Result<(), Fail> {
    let line = tidied(rt.alloc(), b"D\tY\tab\nS\t07\n")?;
    let told: &[u8] = b"X\t24\t2\t2\t3\n";
    assert!(rt; line.as_slice() == told);
    let none = tidied(rt.alloc(), b"")?;
    let told: &[u8] = b"X\t21\t0\t0\t0\n";
    assert!(rt; none.as_slice() == told);
    Ok(())
}
