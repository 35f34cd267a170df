ghost use Rattle.tables.specs.TableLaws.{TableLaws};

// For every two machines, whatever their states are: a table that is built says what its machine says and has as many
// states as words reach, and machines that are alike have equal tables, cell by cell.
pub fn table_laws<S, R>()
    ensures { TableLaws S R }
{}
