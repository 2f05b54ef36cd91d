//! Functions by inlining: a translation unit becomes one program without calls, its inlined program, in
//! which each function stands in the place of each of its calls.
#![tactic(auto)]

mod copying;
mod counting;
mod error;
mod expressions;
mod finding;
mod inlining;
mod parts;
mod refusals;
mod site;
mod size;
mod tables;

pub use error::InlineError;
pub use inlining::inline;
