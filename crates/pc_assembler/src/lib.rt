//! The top call of the assembler, which writes the object of a listing.
#![tactic(auto)]

mod assembler;
mod fault;
mod host;
mod laws;
mod line;
mod loading;
mod telling;

pub use assembler::assemble;
pub use fault::{AssemblerFault, TextFault};
pub use host::run;
pub use laws::laws_of_the_assembler;
