//! How many bytes the parts of an object's text have, for who counts them before they are made.
ghost use Rattle.std.specs.Prelude.{◌≡◌, ◌≤◌};
ghost use Rattle.pc_object.specs.Sizes.{operand_bytes, item_bytes, test_bytes};

use pc_word::{Item, Operand};

/// The header of `PTV1` but for the lengths of arrays.
pub const HEADER_BYTES: u32 = 12;

/// The length of an array.
pub const LENGTH_BYTES: u32 = 4;

/// A leaf that leads to a row.
pub const GOTO_BYTES: u32 = 5;

/// The end, as a leaf.
pub const END_BYTES: u32 = 1;

/// A trap with its line.
pub const TRAP_BYTES: u32 = 6;

/// The count of notes.
pub const COUNT_BYTES: u32 = 2;

/// A note.
pub const NOTE_BYTES: u32 = 13;

/// The bytes of an operand with its tag.
pub fn operand_bytes(operand: Operand) -> u32
    ensures bytes { result ≡ operand_bytes operand }
    ensures most { result ≤ 5 }
{
    match operand {
        Operand::Name(_) => 2,
        Operand::Lit(_) => 5,
    }
}

/// The bytes of an item: its tag and its fields.
pub fn item_bytes(item: Item) -> u32
    ensures bytes { result ≡ item_bytes item }
    ensures most { result ≤ 13 }
{
    match item {
        Item::Bin { left, right, .. } => 3 + operand_bytes(left) + operand_bytes(right),
        Item::Copy { from, .. } => 2 + operand_bytes(from),
        Item::Load { index, .. } => 3 + operand_bytes(index),
        Item::Store { index, value, .. } => 2 + operand_bytes(index) + operand_bytes(value),
        Item::Print { value } => 1 + operand_bytes(value),
        Item::Read { .. } | Item::More { .. } => 2,
    }
}

/// The bytes of a test but for its sides: its tag and its operand.
pub fn test_bytes(on: Operand) -> u32
    ensures bytes { result ≡ test_bytes on }
    ensures most { result ≤ 6 }
{
    1 + operand_bytes(on)
}
