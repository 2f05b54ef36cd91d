//! Codes and objects that tests are made of.
#![tactic(auto)]

mod objects;
mod rows;

pub use objects::{KINDS, SUM, TREE};
pub use rows::{End, chain, code, rows_text};
