//! The top call of the profiler, which runs an object and tells what the run cost.
#![tactic(auto)]

mod cost;
mod host;
mod laws;
mod profiler;

pub use host::run;
pub use laws::laws_of_the_profiler;
pub use profiler::profile;
