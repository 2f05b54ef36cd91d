//! The list of the passes over the flow graph that the compiler applies, and what they make of a graph together.
#![tactic(auto)]

mod compiler_pass;
mod in_order;
mod laws;

pub use compiler_pass::CompilerPass;
pub use in_order::passes;
pub use laws::law_of_the_passes;
