//! The flow graph: one item or test a node, over at most 96 variables.
#![tactic(auto)]

mod flow;
mod laws;
mod node;

pub use flow::Flow;
pub use laws::laws_of_flows;
pub use node::FlowNode;
use pc_word::Seq;

/// Nodes, by number.
pub type FlowNodeList = Seq<FlowNode>;

/// The rank of each node, by its number.
pub type RankList = Seq<u32>;

/// The innermost loop in whose text the construct of each node stands, by the node's number.
pub type InsideList = Seq<Option<u16>>;
