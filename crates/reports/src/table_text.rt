// The text of a table, line by line.
ghost use Rattle.std.specs.Prelude.{◌<◌, ◌∷◌, length, decimal};
ghost use Rattle.fields.specs.Pieces.{behind};
ghost use Rattle.fields.specs.Writing.{PutsCut};
ghost use Rattle.automata.specs.Shown.{sign_bytes};
ghost use Rattle.drafts.specs.Words.{tabulate};
ghost use Rattle.machines.specs.Tables.{count, next};
ghost use Rattle.tables.specs.Shown.{shown};
ghost use Rattle.texts.specs.Writing.{ended_line};
ghost use Rattle.reports.specs.Reports.{head_fields, row_fields, text_of_table};

use fields::writing::Writer;
use fields::written::{Field, Number, Written};
use tables::grid::Grid;
use texts::letters::KindLetter;

// A table as it is printed, under the letter of its kind.
#[derive(Clone, Copy)]
pub struct TableText<'a> {
    pub letter: KindLetter,
    pub grid: &'a Grid,
}

// Puts the first line.
fn put_head(letter: KindLetter, grid: &Grid, out: &mut Writer<'_>)
    ensures { PutsCut out.old out.new (ended_line (head_fields letter (sign_bytes grid.now.signs) (shown grid.now))) }
{
    out.put_cut(&[b'T', b'\t', letter.byte(), b'\t']);
    out.put_cut(grid.signs().as_slice());
    Field(grid.state_count()).put(out);
    out.put_cut(b"\n");
}

// Puts the next state by a letter, behind a tab. That there is such a state is asked here and below: a struct of grid and
// state would be made anew for each line.
fn put_cell(grid: &Grid, state: usize, letter: usize, out: &mut Writer<'_>)
    requires state { state < count (shown grid.now) }
    requires letter { letter < length (sign_bytes grid.now.signs) }
    ensures { PutsCut out.old out.new (9 ∷ decimal (next (length (sign_bytes grid.now.signs)) (shown grid.now) state letter)) }
{
    if let Some(next) = grid.next(state, letter) {
        Field(next).put(out);
    }
}

// Puts the next states of a state by letter.
fn put_cells(grid: &Grid, state: usize, out: &mut Writer<'_>)
    requires { state < count (shown grid.now) }
    ensures { PutsCut out.old out.new (behind 9 (tabulate (length (sign_bytes grid.now.signs)) (λ a. decimal (next (length (sign_bytes grid.now.signs)) (shown grid.now) state a)))) }
{
    // counted, as in `put_each` of texts, which is private there: a cell is asked for by its letter
    for letter in 0..grid.signs().len() {
        put_cell(grid, state, letter, out);
    }
}

// Puts the line of a state.
fn put_row(grid: &Grid, state: usize, out: &mut Writer<'_>)
    requires { state < count (shown grid.now) }
    ensures { PutsCut out.old out.new (ended_line (row_fields (length (sign_bytes grid.now.signs)) (shown grid.now) state)) }
{
    if let Some(value) = grid.value(state) {
        Number(state).put(out);
        Field(usize::from(value)).put(out);
        put_cells(grid, state, out);
        out.put_cut(b"\n");
    }
}

impl Written for TableText<'_> {
    ghost text = { λ t. text_of_table t.letter (sign_bytes t.grid.now.signs) (shown t.grid.now) };

    fn put(&self, out: &mut Writer<'_>) {
        put_head(self.letter, self.grid, out);
        // counted: a line begins with the state's number
        for state in 0..self.grid.state_count() {
            put_row(self.grid, state, out);
        }
    }
}
