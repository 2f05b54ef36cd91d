//! What the steps of a search do not see: the names, the form variables and the first tag of a window.
//!
//! Everything here is a definition in `specs/`, over windows as plain data, or a law.
#![tactic(auto)]

mod laws;

pub use laws::{laws_of_forms, laws_of_normal_forms, laws_of_trees, laws_of_windows};
