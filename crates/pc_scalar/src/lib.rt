//! Passes over the flow graph that change one node at a time.
#![tactic(auto)]

mod before;
mod clearing;
mod copies;
mod copying;
mod dead;
mod difference;
mod ends;
mod fold;
mod folding;
mod known;
mod needed;
mod plan;
mod reach;
mod rewriting;
mod rule;
mod tally;
mod values;
mod valuing;

pub use copies::Copies;
pub use dead::Dead;
pub use ends::{chain_ends, led};
pub use fold::Fold;
pub use plan::{Plan, install};
pub use reach::reached;
pub use rewriting::nodes_of;
pub use tally::Tally;
pub use values::Values;
