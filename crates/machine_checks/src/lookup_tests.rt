use automata::faults::SignFault;
use kinds::rank::R;
use kinds::yes_no::Y;
use lookup::faults::{LongestFault, ValueFault};
use lookup::longest::longest;
use lookup::value::value;
use reports::appending::add;
use reports::scan_text::add_scan;
use reports::table_text::TableText;
use std::test::Fail;
use tables::grid::laying::{LayFault, lay};
use tables::table::Table;
use texts::letters::KindLetter;

// Two arms that end in different values.
fn arms() -> Result<Table<R>, LayFault> {
    lay::<R>(b"ab", 5, &[0, 3, 0, 0, 7], &[1, 2, 1, 3, 4, 3, 3, 3, 4, 3])
}

// The longest front part that has a value, and that value.
fn front<'t>(table: &Table<R>, text: &'t [u8]) -> Option<(&'t [u8], u8)> {
    longest(table, text).ok()
}

#[test]
fn texts_are_read_through_a_table(rt: HostRuntime) -> Result<(), Fail> {
    let table = arms()?;
    assert!(rt; front(&table, b"aab") == Some((b"aa", 3)));
    assert!(rt; front(&table, b"baa+") == Some((b"baa", 7)));
    assert!(rt; longest(&table, b"b").is_err());
    assert!(rt; longest(&table, b"").is_err());
    assert!(rt; longest(&table, b"+a").is_err());
    assert_eq!(rt; LongestFault::NoPart.number(), 13);
    assert_eq!(rt; value(&table, b"ac"), Err(ValueFault::NoSign { place: 1 }));
    assert_eq!(rt; value(&table, b"cab"), Err(ValueFault::NoSign { place: 0 }));
    assert_eq!(rt; ValueFault::NoSign { place: 3 }.number(), 12);
    assert_eq!(rt; value(&table, b""), Ok(0));
    assert_eq!(rt; value(&table, b"aa"), Ok(3));
    assert_eq!(rt; value(&table, b"baa"), Ok(7));
    assert_eq!(rt; value(&table, b"aab"), Ok(0));
    Ok(())
}

#[test]
fn an_empty_front_part_counts(rt: HostRuntime) -> Result<(), Fail> {
    let table = lay::<R>(b"a", 2, &[5, 0], &[1, 1])?;
    assert_eq!(rt; value(&table, b""), Ok(5));
    assert!(rt; front(&table, b"aaa") == Some((b"", 5)));
    assert!(rt; front(&table, b"") == Some((b"", 5)));
    assert!(rt; front(&table, b"?") == Some((b"", 5)));
    Ok(())
}

#[test]
fn a_table_is_added(rt: HostRuntime) -> Result<(), Fail> {
    let table = arms()?;
    let mut out = Vec::from_slice(rt.alloc(), b"#")?;
    let text = TableText {
        letter: KindLetter::R,
        grid: table.grid(),
    };
    add(&mut out, &text)?;
    let told: &[u8] = b"#T\tR\tab\t5\n0\t0\t1\t2\n1\t3\t1\t3\n2\t0\t4\t3\n3\t0\t3\t3\n4\t7\t4\t3\n";
    assert!(rt; out.as_slice() == told);
    Ok(())
}

#[test]
fn entries_are_added(rt: HostRuntime) -> Result<(), Fail> {
    let table = arms()?;
    let mut out = Vec::from_slice(rt.alloc(), b"#")?;
    add_scan(&mut out, &table, b"aab")?;
    add_scan(&mut out, &table, b"b+")?;
    let told: &[u8] = b"#V\t0\t-\tL\taa\t3\nX\t12\t1\tX\t13\t-\n";
    assert!(rt; out.as_slice() == told);
    Ok(())
}

// The number of the refusal of a table.
fn refused(signs: &[u8], count: usize, values: &[u8], next: &[usize]) -> Option<u8> {
    lay::<Y>(signs, count, values, next)
        .err()
        .map(LayFault::number)
}

// The number of the refusal of a table with this many states, values and next states.
fn refused_by_size(count: usize, values: usize, cells: usize) -> Option<u8> {
    let codes = [1u8; 200];
    let next = [0usize; 400];
    refused(
        b"ab",
        count,
        &codes[..values.min(200)],
        &next[..cells.min(400)],
    )
}

#[test]
fn tables_are_laid(rt: HostRuntime) {
    assert_eq!(rt; refused_by_size(1, 1, 2), None);
    assert_eq!(rt; refused_by_size(128, 128, 256), None);
    assert_eq!(rt; refused_by_size(129, 129, 258), Some(14));
    assert_eq!(rt; refused_by_size(0, 0, 0), Some(14));
    assert_eq!(rt; refused_by_size(3, 2, 6), Some(14));
    assert_eq!(rt; refused_by_size(3, 4, 6), Some(14));
    assert_eq!(rt; refused_by_size(3, 3, 5), Some(14));
    assert_eq!(rt; refused_by_size(3, 3, 7), Some(14));
    assert!(rt; lay::<Y>(b"", 0, &[], &[9]).is_err());
    assert_eq!(rt;
        refused(b"", 0, &[2], &[9]),
        Some(1),
        "the signs come first"
    );
    assert_eq!(rt; refused(b"aa", 0, &[2], &[9]), Some(2));
    assert_eq!(rt; refused(b"a", 0, &[2], &[9]), Some(14));
    assert_eq!(rt;
        refused(b"a", 1, &[2], &[1]),
        Some(15),
        "the next states before the values"
    );
    assert_eq!(rt; refused(b"a", 1, &[2], &[0]), Some(5));
    assert_eq!(rt; refused(b"a", 1, &[1], &[0]), None);
}
