//! The machine's code: rows that are trees of items and tests, and what is wrong with a code.
//!
//! `specs/` says what one row does in one cycle, what a code does, and when a code is well formed.
#![tactic(auto)]

mod check;
mod code;
mod laws;
mod tree;

pub use check::{
    Bounds, Counts, Path, array_count, array_length, data_count, data_tail, limit, register_count,
    row_count, well_formed,
};
pub use code::{Code, FEW_REGISTERS, Flaw, MOST_REGISTERS, TreeList};
pub use laws::laws_of_codes;
pub use pc_word::{End, MachineFault};
pub use tree::{Leaf, Tree, leaf_count};
