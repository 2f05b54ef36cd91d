//! What a run costs: a machine is run, and how often each row ran and each of its leaves was taken is counted.
//!
//! All memory is taken before the first cycle, in proportion to the leaves of the code, whatever the run is. What the run
//! did, as its items, loads and tests, follows from these counts.
#![tactic(auto)]

mod laws;
mod profile;
mod running;
mod work;

pub use laws::{laws_of_counts, laws_of_cycles};
pub use profile::{CountList, Profile, run_profile};
pub use work::{Work, copy_cycles, work_of};
