//! Laws of the reading. No function here does anything: each one's contract is a law.
ghost use Rattle.pc_assembly.specs.Laws.{PartsReadBack, RowsReadBack, GotosReadByName, RowsReadByName, NamesAreOfRows, ListingsReadBack};

/// What is printed of an object is read back: each item, test and leaf; the lines of each row's tree, as the
/// parts of the row; and the whole listing, as the object that was listed. A name of a row is read as
/// its number, and what gives a name begins a row.
pub fn laws_of_reading()
    ensures parts { PartsReadBack }
    ensures rows { RowsReadBack }
    ensures gotos_by_name { GotosReadByName }
    ensures rows_by_name { RowsReadByName }
    ensures names_of_rows { NamesAreOfRows }
    ensures listings { ListingsReadBack }
{}
