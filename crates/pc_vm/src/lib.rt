//! The simulator: a machine that runs a well-formed code on an input, cycle by cycle.
//!
//! All memory that a run needs is taken when the machine is made, so neither a cycle nor a run can
//! want any. A cycle's cost is in proportion to the path that it takes through its row.
#![tactic(auto)]

mod event;
mod exit;
mod machine;
mod pending;
mod row;
mod values;

pub use event::{Event, MachineError, Outcome, RunError};
pub use exit::Exit;
pub use machine::Machine;
