//! Cutting: from a flow graph to its table of regions.
#![tactic(auto)]

mod cutting;
mod error;
mod headers;
mod heads;
mod in_edges;
mod laws;
mod numbering;
mod reachable;
mod table;

pub use error::RegionError;
pub use laws::{law_of_one_cut, laws_of_cut_runs};
pub use table::regions;
