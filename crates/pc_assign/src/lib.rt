//! Registers for the names of an automaton.
#![tactic(auto)]

mod assigned;
mod assigning;
mod definitions;
mod error;
mod laws;
mod naming;
mod parameters;
mod passing;
mod pressure;
mod register_set;
mod uses;

pub use assigned::Assigned;
pub use assigning::{assign, begins_with_variables};
pub use error::AssignError;
pub use laws::{law_of_live_names, law_of_one_rule};
