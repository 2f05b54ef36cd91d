//! How many edges lead to each node.
ghost use Rattle.std.specs.Prelude.{◌≡◌, ◌<◌, ◌≤◌, ℕ, length, slice_index, IfOk};
ghost use Rattle.pc_flow.specs.FlowGraph.{IsFlow};
ghost use Rattle.pc_regions.specs.Reachable.{AreReachable};
ghost use Rattle.pc_regions.specs.models.Counts.{CountsEdges, AddsEdge, AddsEdges};

use pc_flow::{Flow, FlowNode};
use std::alloc::{AllocError, Global};

/// How many edges lead to each node from these, where 2 stands for that number and every greater one.
#[tactic(auto, using(crate::proofs::Counting::nodes_counted))]
pub(crate) fn in_edge_counts(
    alloc: Global,
    flow: &Flow,
    reachable: &[u32],
) -> Result<Vec<u8>, AllocError>
    requires kept { IsFlow flow.now }
    requires reachable { AreReachable flow.now reachable.now }
    ensures { IfOk result (λ counts. CountsEdges flow.now reachable.now counts.items) }
{
    let mut counts = vec![in alloc; 0; flow.count() as usize]?;
    for from in reachable {
        count_edges(flow, *from, &mut counts);
    }
    Ok(counts)
}

/// Counts the edges of a node.
#[tactic(auto, using(crate::proofs::Counting::edges))]
fn count_edges(flow: &Flow, from: u32, counts: &mut [u8])
    requires kept { IsFlow flow.now }
    requires as_many { length counts.old ≡ length flow.now.nodes }
    requires there { from < length flow.now.nodes }
    requires few { (to : ℕ) → slice_index counts.old to ≤ 2 }
    ensures { AddsEdges flow.now.nodes from counts.old counts.new }
{
    match flow.node(from) {
        FlowNode::Op { next, .. } => count_edge(next, counts),
        FlowNode::Test { yes, no, .. } => {
            count_edge(yes, counts);
            count_edge(no, counts);
        }
        FlowNode::Stop | FlowNode::Trap { .. } => {}
    }
}

/// Counts an edge to a node.
#[tactic(auto, using(crate::proofs::Counting::one_edge))]
fn count_edge(to: u32, counts: &mut [u8])
    requires there { to < length counts.old }
    requires few { (to : ℕ) → slice_index counts.old to ≤ 2 }
    ensures { AddsEdge to counts.old counts.new }
{
    let count = counts[to as usize];
    if count < 2 {
        counts[to as usize] = count + 1;
    }
}
