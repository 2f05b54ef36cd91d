//! What a run does, cycle by cycle, as a text to be read.
//!
//! Only the cycles that are told take memory.
#![tactic(auto)]

mod cycle;
mod deed;
mod laws;
mod text;

pub use cycle::{TracedCycle, trace_cycle};
pub use deed::Deed;
pub use laws::laws_of_traces;
pub use text::trace_text;
