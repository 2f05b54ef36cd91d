//! Moves between registers, and rows of them.
use pc_word::{Operand, Seq};

/// A register takes the value of an operand.
#[derive(Clone, Copy, Debug, PartialEq, Eq)]
pub struct Move {
    pub dest: u32,
    pub from: Operand,
}

/// The copies of one row, which reads all of its operands before it writes.
pub type CopyRow = Seq<Move>;

/// Rows in the order in which they run.
pub type CopyRows = Seq<CopyRow>;
