use pc_machine::Code;
use pc_word::Seq;

/// How the loop at a line of the source was scheduled, and by which number a better form was
/// refused.
///
/// `choice` is 0 for a pipelined loop; 1, 2 or 3 for one that is packed because of its rows, its
/// live values or its bytes; 4 for one packed because no more than one turn may stand in a window;
/// and 5, 6 or 7 for one that is plain because packing was refused for its rows, live values or
/// bytes. `line` is that of the loop's keyword. `number` was met where `limit` is allowed; of a
/// pipelined loop they are its states and the rows that it may have.
#[derive(Clone, Copy, Debug, PartialEq, Eq)]
pub struct Note {
    pub choice: u8,
    pub line: u32,
    pub number: u32,
    pub limit: u32,
}

/// Notes, in the order of the loops' numbers.
pub type NoteList = Seq<Note>;

/// What a compiled program is stored as.
#[derive(Debug, Drop)]
pub struct Object {
    pub code: Code,
    pub notes: NoteList,
}
