//! Moving the first test of a node of a window upward, into the node above it.
#![tactic(auto)]

mod climbing;
mod dividing;
mod moving;

pub use moving::{move_cj, why_not};
