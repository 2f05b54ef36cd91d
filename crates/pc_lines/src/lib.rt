//! The line of the source that each node of a program's flow graph comes from.
#![tactic(auto)]

mod expression;
mod laws;
mod line_list;
mod program;
mod statement;

pub use laws::law_of_lines;
use pc_word::Seq;
pub use program::lines;

/// Lines of a source, counted from 1.
pub type LineList = Seq<u32>;
