//! Windows whose names and form variables are numbered anew, without gaps.
#![tactic(auto)]

mod forms;
mod names;
mod renumbering;
mod trees;
mod variables;

pub use renumbering::{renumber, renumber_by};
