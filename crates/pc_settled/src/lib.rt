//! Rows in which no copy of a row of copies could be spared: which registers rows need, which values are to have one
//! register, and a check by them.
#![tactic(auto)]

mod laws;
mod liveness;
mod nodes;
mod points;
mod register_set;
mod settling;

pub use laws::law_of_webs;
pub use liveness::{Home, Liveness, liveness_of};
pub use nodes::{NodeSets, node_below, node_sets};
pub use points::{Gathering, count_leaves, gathered};
pub use register_set::RegisterSet;
pub use settling::is_settled;
