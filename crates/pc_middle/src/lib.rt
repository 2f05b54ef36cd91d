//! The middle of the compiler: from a checked program to the regions of its flow graph, after passes over the graph.
#![tactic(auto)]

mod error;
mod laws;
mod program;

pub use error::CutError;
pub use laws::laws_of_cut_programs;
pub use program::{CutProgram, cut_program};
