//! The vocabulary that every other crate speaks: words, operands, items, lists.
#![tactic(auto)]

mod alike;
mod initial;
mod item;
mod laws;
mod limits;
mod loop_mark;
mod number_text;
mod out_of_memory;
mod row_tree;
mod seq;
mod word;

pub use initial::no_data;
pub use item::{End, Extent, Item, Limits, MachineFault, OpCode, Operand, Operands, TrapKind};
pub use laws::{law_of_single_items, laws_of_agreement, laws_of_number_texts, laws_of_words};
pub use limits::{
    MOST_ARRAYS, MOST_CYCLES, MOST_ELEMENTS, MOST_HEIGHT, MOST_INPUT, MOST_LENGTH, MOST_MEM,
    MOST_NODES, MOST_OBJECT, MOST_OPS, MOST_ROWS, MOST_SCALARS, MOST_SOURCE, MOST_TEMPORARIES,
    MOST_TESTS, MOST_TOKENS, MOST_WINDOW,
};
pub use loop_mark::LoopMark;
pub use number_text::{NumberLine, NumbersError, read_numbers};
pub use out_of_memory::OutOfMemory;
pub use row_tree::RowTree;
pub use seq::Seq;
pub use word::{
    add, and, apply, below, div, equal, less, less_eq, mul, or, rem, shl, shr, sub, unequal, xor,
};

/// Lengths of arrays, in elements.
pub type LengthList = Seq<u32>;

/// Words, as a program's input.
pub type WordList = Seq<i32>;

/// The words with which each array begins, by number.
pub type DataList = Seq<WordList>;

/// Bytes.
pub type ByteList = Seq<u8>;

/// The loops of a program, by number.
pub type LoopList = Seq<LoopMark>;
