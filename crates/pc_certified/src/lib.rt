//! When claims of a certificate show that a code does what a table of regions does, whoever wrote the
//! code.
//!
//! Everything here is a definition in `specs/`, over tables, windows and codes as plain data.
#![tactic(auto)]

mod laws;

pub use laws::{examples_of_certificates, law_of_certificates, laws_of_moves};
