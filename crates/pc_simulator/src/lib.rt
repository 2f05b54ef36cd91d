//! The top call of the simulator.
#![tactic(auto)]

mod laws;
mod program;
mod simulate;

pub use laws::laws_of_the_simulator;
pub use program::simulator;
