//! Rebasing a window: its parameters become the variables in which all forms are written.
#![tactic(auto)]

mod bases;
mod finding;
mod rebasing;
mod rewriting;
mod standing;
mod terms;
mod turns;

pub use rebasing::rebase;
