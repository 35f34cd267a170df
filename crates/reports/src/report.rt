// The whole text that is printed of a press: the table and the line of the verdict.
ghost use Rattle.std.specs.Prelude.{◌≡◌, ◌∷◌};
ghost use Rattle.fields.specs.Writing.{PutsCut};
ghost use Rattle.automata.specs.Shown.{sign_bytes};
ghost use Rattle.tables.specs.Shown.{shown};
ghost use Rattle.texts.specs.Writing.{ended_line};
ghost use Rattle.reports.specs.Reports.{option_field, byte_of_verdict, verdict_fields, report_text};

use crate::table_text::TableText;
use fields::writing::Writer;
use fields::written::{Field, Written};

// What is printed of a press.
#[derive(Clone, Copy)]
pub struct Report<'a> {
    pub table: TableText<'a>,
    // how many states the backward table has
    pub backward_count: usize,
    // the first state that is not atomic
    pub not_atomic: Option<usize>,
    // how many states the one-way build has, where there is room for them
    pub forward_count: Option<usize>,
}

// Puts a tab and a number, or - where there is none.
fn put_option(number: Option<usize>, out: &mut Writer<'_>)
    ensures { PutsCut out.old out.new (9 ∷ option_field number) }
{
    match number {
        Some(number) => Field(number).put(out),
        None => out.put_cut(b"\t-"),
    }
}

// A where every state is atomic, else N.
fn verdict_byte(not_atomic: Option<usize>) -> u8
    ensures { result ≡ byte_of_verdict not_atomic }
{
    not_atomic.map_or(b'A', |_| b'N')
}

impl Report<'_> {
    // Puts the line of the verdict.
    fn put_verdict(&self, out: &mut Writer<'_>)
        ensures { PutsCut out.old out.new (ended_line (verdict_fields self.now.backward_count self.now.not_atomic self.now.forward_count)) }
    {
        out.put_cut(b"V");
        Field(self.backward_count).put(out);
        out.put_cut(&[b'\t', verdict_byte(self.not_atomic)]);
        put_option(self.not_atomic, out);
        put_option(self.forward_count, out);
        out.put_cut(b"\n");
    }
}

impl Written for Report<'_> {
    ghost text = { λ r. report_text r.table.letter (sign_bytes r.table.grid.now.signs) (shown r.table.grid.now) r.backward_count r.not_atomic r.forward_count };

    fn put(&self, out: &mut Writer<'_>) {
        self.table.put(out);
        self.put_verdict(out);
    }
}
