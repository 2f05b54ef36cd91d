//! The parts of a graph.

use crate::graphs::{NODES, example};
use pc_flow::{FlowNode, laws_of_flows};
use std::test::Fail;

#[test]
fn each_part_is_read_back(rt: HostRuntime) -> Result<(), Fail> {
    let mut flow = example(rt.alloc())?;
    assert_eq!(rt; flow.count(), 8);
    assert_eq!(rt; flow.entry(), 0);
    assert_eq!(rt; flow.node(2), NODES[2]);
    assert_eq!(rt; flow.rank(1), 3);
    assert_eq!(rt; flow.inside(3), Some(0));
    assert_eq!(rt; flow.loops().len(), 1);
    assert!(rt; flow.arrays().is_empty());
    flow.set_entry(1);
    flow.set_node(7, FlowNode::Stop);
    assert_eq!(rt; flow.entry(), 1);
    laws_of_flows();
    Ok(())
}
