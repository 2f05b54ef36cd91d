//! Which variables are live at each node of a flow graph.
#![tactic(auto)]

mod analysis;
mod error;
mod laws;
mod liveness;
mod solver;
mod uses;
mod variable_set;

pub use analysis::live;
pub use error::LiveError;
pub use laws::law_of_dead_variables;
pub use liveness::Liveness;
pub use solver::{BackwardAnalysis, solve};
pub use uses::{passed_by, read_by};
pub use variable_set::VariableSet;
