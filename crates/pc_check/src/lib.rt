//! Names and limits of a source program: what each name stands for, and what is wrong with a program
//! that reads but cannot be compiled.
#![tactic(auto)]

mod checked;
mod error;
mod expression;
mod initial;
mod laws;
mod measure;
mod program;
mod scopes;
mod search;
mod slot;
mod statement;

pub use checked::Checked;
pub use error::CheckError;
pub use laws::laws_of_resolved_programs;
pub use measure::{branch_size, hold, need, size, statement_size};
pub use program::check;
