//! From the syntax tree to the flow graph: when nodes implement a program, and that they then do
//! what the program does.
#![tactic(auto)]

mod assignment;
mod data;
mod draft;
mod element;
mod error;
mod expression;
mod laws;
mod marks;
mod measure;
mod parts;
mod program;
mod site;
mod spot;
mod statement;
mod value;

pub use error::LowerError;
pub use laws::laws_of_lowered_runs;
pub use program::lower;
