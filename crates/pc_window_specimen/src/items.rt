//! Items of regions and windows, in short.

use pc_word::{Item, OpCode, Operand};

/// A print.
pub fn print(value: Operand) -> Item {
    Item::Print { value }
}

/// A binary operation.
pub fn bin(op: OpCode, dest: u32, left: Operand, right: Operand) -> Item {
    Item::Bin {
        op,
        dest,
        left,
        right,
    }
}

/// A load of an element of array 0.
pub fn load(dest: u32, index: Operand) -> Item {
    Item::Load {
        dest,
        array: 0,
        index,
    }
}

/// A store to an element of array 0.
pub fn store(index: Operand, value: Operand) -> Item {
    Item::Store {
        array: 0,
        index,
        value,
    }
}
