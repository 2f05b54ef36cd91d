//! Linear forms modulo 2^32, and when two of them are never or always equal.
#![tactic(auto)]

mod form;
mod laws;
mod sum;
mod term;

pub use form::LinForm;
pub use laws::{laws_of_sums, laws_of_values};
pub use term::Term;
