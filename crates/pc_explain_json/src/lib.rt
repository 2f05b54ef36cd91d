//! The explanations of loops as JSON, for other programs.
#![tactic(auto)]

mod json;
mod json_cycle;
mod json_row;
mod json_state;

pub use json::explanation_json;
