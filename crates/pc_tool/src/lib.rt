//! The top call of both programs: the compiler, and beside it the simulator.
#![tactic(auto)]

mod compile;
mod host;
mod laws;
mod program;
mod status;
mod translation;

pub use host::{run, run_out};
pub use laws::laws_of_the_compiler;
pub use program::{Who, tool};
pub use status::Status;
