// What `scan` prints of an entry: its value, and its longest front part.
ghost use Rattle.std.specs.Prelude.{◌≡◌, ◌∷◌, ◌++◌, []};
ghost use Rattle.fields.specs.Writing.{PutsCut};
ghost use Rattle.lookup.specs.Lookups.{Valued, Longest};
ghost use Rattle.reports.specs.Scans.{code_text, no_sign_text, value_text, part_text, longest_text, ScanAdds};

use crate::appending::add;
use fields::writing::Writer;
use fields::written::{Field, Written};
use kinds::kind::Kind;
use lookup::faults::{LongestFault, ValueFault};
use lookup::longest::longest;
use lookup::value::value;
use std::alloc::AllocError;
use tables::table::Table;

// What is read of an entry: its value, and its longest front part with the value of that.
#[derive(Clone, Copy)]
struct Scan<'t> {
    value: Result<u8, ValueFault>,
    longest: Result<(&'t [u8], u8), LongestFault>,
}

impl<'t> Scan<'t> {
    // What is read of an entry through this table.
    fn of<K: Kind>(table: &Table<K>, entry: &'t [u8]) -> Scan<'t>
        ensures value { Valued K.model table.now.grid entry.now result.value }
        ensures longest { Longest K.model table.now.grid entry.entry result.longest }
    {
        Scan {
            value: value(table, entry),
            longest: longest(table, entry),
        }
    }
}

// Puts the fields of a value: V, the value and -.
fn put_code(code: u8, out: &mut Writer<'_>)
    ensures { PutsCut out.old out.new (code_text code) }
{
    out.put_cut(b"V");
    Field(usize::from(code)).put(out);
    out.put_cut(b"\t-");
}

// Puts the fields of a byte that is no sign: X, the number of the refusal and the place.
// The number stands in the text: tried with `fault.number()`, here and below, and the proof did not close.
fn put_no_sign(place: usize, out: &mut Writer<'_>)
    ensures { PutsCut out.old out.new (no_sign_text place) }
{
    out.put_cut(b"X\t12");
    Field(place).put(out);
}

// Puts the fields of a value, or of the byte that is no sign.
fn put_value(value: Result<u8, ValueFault>, out: &mut Writer<'_>)
    ensures { PutsCut out.old out.new (value_text value) }
{
    match value {
        Ok(code) => put_code(code, out),
        Err(ValueFault::NoSign { place }) => put_no_sign(place, out),
    }
}

// Puts the fields of a longest front part: L, the part and its value.
fn put_part(part: &[u8], code: u8, out: &mut Writer<'_>)
    ensures { PutsCut out.old out.new (part_text part.now code) }
{
    out.put_cut(b"L\t");
    out.put_cut(part);
    Field(usize::from(code)).put(out);
}

// The same, or X, the number of the refusal and - where there is none.
fn put_longest(longest: Result<(&[u8], u8), LongestFault>, out: &mut Writer<'_>)
    ensures { PutsCut out.old out.new (longest_text longest.entry) }
{
    match longest {
        Ok((part, code)) => put_part(part, code, out),
        Err(_) => out.put_cut(b"X\t13\t-"),
    }
}

impl Written for Scan<'_> {
    ghost text = { λ s. value_text s.value ++ (9 ∷ (longest_text s.longest ++ 10 ∷ [])) };

    fn put(&self, out: &mut Writer<'_>) {
        put_value(self.value, out);
        out.put_cut(b"\t");
        put_longest(self.longest, out);
        out.put_cut(b"\n");
    }
}

// Adds the line of an entry.
pub fn add_scan<K: Kind>(
    out: &mut Vec<u8>,
    table: &Table<K>,
    entry: &[u8],
) -> Result<(), AllocError>
    ensures { ScanAdds K.model table.now.grid entry.entry out.old.items out.new.items result }
{
    add(out, &Scan::of(table, entry))
}
