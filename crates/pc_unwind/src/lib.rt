//! Unwinding a window: the stubs inside its loop are replaced by the trees of the regions that they
//! lead to.
#![tactic(auto)]

mod growth;
mod homes;
mod laws;
mod nodes;
mod regions;
mod replacing;
mod tags;
mod unwinding;
mod walking;

pub use homes::homes_by_variable;
pub use laws::laws_of_unwinding;
pub use nodes::{placed, split};
pub use unwinding::unwind;
