//! A pass over the flow graph that decides tests by intervals.
#![tactic(auto)]

mod bounds;
mod interval;
mod keeping;
mod making;
mod marks;
mod narrowing;
mod over;
mod ranges;
mod rewriting;

pub use ranges::Ranges;
