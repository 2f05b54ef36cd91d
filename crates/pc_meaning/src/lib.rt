//! What a source program means: what it shows as it runs, and the operations that it passes.
//!
//! Everything here is a definition in `specs/`, over the program without pointers that a tree in memory
//! stands for (`pc_syntax`), with scalars and arrays named by their numbers.
#![tactic(auto)]

mod laws;

pub use laws::{laws_of_lowered_operators, laws_of_source_runs, laws_of_traces};
