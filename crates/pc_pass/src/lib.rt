//! Passes over the flow graph: what each keeps, and running a list of them.
#![tactic(auto)]

mod list;
mod memory;
mod pass;

pub use list::{run_list, run_passes};
pub use memory::PassMemory;
pub use pass::Pass;
