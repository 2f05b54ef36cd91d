//! Region tables: flow graphs that are cut into trees, and what the trees do one after the other.
#![tactic(auto)]

mod laws;
mod loops;
mod table;
mod tree;

pub use laws::laws_of_regions;
use pc_word::Seq;
pub use table::{MOST_REGION_NODES, Region, RegionTable};
pub use tree::RegionTree;

/// Variables.
pub type VarList = Seq<u32>;

/// Regions, by number.
pub type RegionList = Seq<Region>;
