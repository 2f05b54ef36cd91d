use crate::error::Place;
use crate::part::Part;
use pc_object::Note;

/// With what word a line of a row begins.
#[derive(Clone, Copy, Debug, PartialEq, Eq)]
pub enum Side {
    /// With none.
    Neither,
    Yes,
    No,
}

/// What is due after the lines that were read.
#[derive(Clone, Copy, Debug, PartialEq, Eq)]
pub enum Stage {
    /// This element's word, or the first word of a later array, or row 0.
    Data { array: u8, element: u32 },
    /// A part of a row, with this word in front of it. Of the tests of the row, `sides` are still without
    /// their no side; the next row has the number `next`.
    Part { side: Side, sides: u8, next: u32 },
    /// The row with this number, or a note.
    Row { next: u32 },
    /// A note, after so many rows and notes.
    Note { rows: u32, notes: u16 },
}

/// What a line of a listing tells, from the second line on.
#[derive(Clone, Copy, Debug, PartialEq, Eq)]
pub enum Content {
    /// A word of an array's data.
    Word { array: u8, value: i32 },
    /// That a row begins.
    Row,
    /// A part of the row.
    Part(Part),
    /// A note.
    Note(Note),
}

/// A line of a listing, and where its first word stands.
#[derive(Clone, Copy, Debug, PartialEq, Eq)]
pub struct Line {
    pub at: Place,
    pub content: Content,
}

/// How many rows and notes a listing has.
#[derive(Clone, Copy, Debug, PartialEq, Eq)]
pub struct Totals {
    pub rows: u32,
    pub notes: u16,
}
