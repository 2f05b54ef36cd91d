//! Facts as they are stored: which operands of a window have the values of which registers and
//! literals of a row.
use pc_word::{Item, Operand, Seq};

/// A source, which is a register or a literal of a row, has the value of an operand of a window.
#[derive(Clone, Copy, Debug, Drop)]
pub struct Fact {
    pub source: Operand,
    pub operand: Operand,
}

/// Facts that hold at one place.
pub type FactList = Seq<Fact>;

/// The facts that hold at each leaf of a row, in preorder.
pub type HeldList = Seq<FactList>;

/// The items of a path, from the root on.
pub(crate) type ItemList = Seq<Item>;

/// Operands that have one value.
pub(crate) type OperandList = Seq<Operand>;
