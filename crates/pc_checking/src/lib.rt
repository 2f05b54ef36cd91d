//! The checker of certificates: whether one is accepted, which says why a code does what a table of regions does.
#![tactic(auto)]

mod arranged;
mod arrival;
mod checking;
mod data;
mod error;
mod fronts;
mod leading;
mod leaves;
mod passing;
mod setting;

pub use checking::check;
pub use error::CheckError;
