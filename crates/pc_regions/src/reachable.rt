//! The nodes of a graph that can come next at all.
ghost use Rattle.std.specs.Prelude.{◌≡◌, ◌<◌, length, IfOk, OnOk};
ghost use Rattle.pc_flow.specs.FlowGraph.{IsFlow};
ghost use Rattle.pc_regions.specs.Reachable.{AreReachable};
ghost use Rattle.pc_regions.specs.models.Reaching.{MeetsEdges};

use crate::numbering::Numbering;
use pc_flow::{Flow, FlowNode};
use pc_word::Seq;
use std::alloc::{AllocError, Global};

/// The nodes to which edges lead from the entry, in the order in which they are first met.
pub(crate) fn reachable_nodes(alloc: Global, flow: &Flow) -> Result<Seq<u32>, AllocError>
    ensures kept { IsFlow flow.now }
    ensures nodes { IfOk result (λ nodes. AreReachable flow.now nodes) }
{
    let mut met = Numbering::new(alloc, flow.count())?;
    met.number(flow.entry())?;
    let mut done = 0;
    while let Some(node) = met.node(done) {
        meet_edges(flow, node, &mut met)?;
        done += 1;
    }
    Ok(met.into_order())
}

/// Goes along the edges of a node.
#[tactic(auto, using(crate::proofs::Reaching::edges))]
fn meet_edges(flow: &Flow, from: u32, met: &mut Numbering) -> Result<(), AllocError>
    requires kept { IsFlow flow.now }
    requires nodes { length met.old.numbers ≡ length flow.now.nodes }
    requires there { from < length flow.now.nodes }
    ensures { OnOk result (MeetsEdges flow.now.nodes from met.old met.new) }
{
    match flow.node(from) {
        FlowNode::Op { next, .. } => {
            met.number(next)?;
        }
        FlowNode::Test { yes, no, .. } => {
            met.number(yes)?;
            met.number(no)?;
        }
        FlowNode::Stop | FlowNode::Trap { .. } => {}
    }
    Ok(())
}
