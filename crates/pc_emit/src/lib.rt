//! The rows of a machine for the regions of a table: an automaton on registers for each region that
//! is packed, and a row for each item and test of one that is plain.
#![tactic(auto)]

mod emission;
mod error;
mod form;
mod laws;
mod names;
mod output;
mod packed;
mod passing;
mod plain;
mod plan;
mod trees;

pub use emission::emit;
pub use error::EmitError;
pub use form::RegionForm;
pub use laws::law_of_emission;
