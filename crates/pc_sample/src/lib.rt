//! Generated sources: a program for each number.
#![tactic(auto)]

mod generate;
mod laws;

pub use generate::{MOST_SAMPLE, SampleError, sample};
pub use laws::laws_of_samples;
