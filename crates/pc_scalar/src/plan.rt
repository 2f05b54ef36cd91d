//! Changes of a graph that are planned first, so that nothing that may fail is left once the graph is touched.
ghost use Rattle.std.specs.Prelude.{◌≡◌};
ghost use Rattle.pc_scalar.specs.models.Plan.{Fits, planned};

use pc_flow::{Flow, FlowNodeList};

/// The nodes that a graph gets, each in the place of the one with its number, the node where it
/// begins then, and how many nodes that changes or skips.
#[derive(Debug, Drop)]
pub struct Plan {
    pub nodes: FlowNodeList,
    pub entry: u32,
    pub changed: u32,
}

/// Lets a graph be as planned.
pub fn install(flow: &mut Flow, plan: &Plan)
    requires { Fits flow.old plan.now }
    ensures { flow.new ≡ planned plan.now flow.old }
{
    let nodes = plan.nodes.as_slice();
    for at in 0..flow.count() {
        flow.set_node(at, nodes[at as usize]);
    }
    flow.set_entry(plan.entry);
}
