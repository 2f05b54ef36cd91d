//! The only way to each node, where there is one.
ghost use Rattle.std.specs.Prelude.{◌≡◌, ◌<◌, length, replicate, IfOk};
ghost use Rattle.pc_scalar.specs.models.Ends.{NodeThere};
ghost use Rattle.pc_scalar.specs.models.Met.{AreReached};
ghost use Rattle.pc_forward.specs.models.Ways.{with_edge, with_edge_to, noted, AreWays};

use pc_flow::{Flow, FlowNode};
use std::alloc::{AllocError, Global};

/// What leads to a node from nodes that can be reached.
#[derive(Clone, Copy, Debug, PartialEq, Eq)]
pub(crate) enum Way {
    /// No edge.
    Nothing,
    /// One edge, from this node.
    Only(u32),
    /// Several edges, or the beginning of the graph.
    Several,
}

/// What leads to each node of a graph.
pub(crate) fn ways(alloc: Global, flow: &Flow, flags: &[bool]) -> Result<Vec<Way>, AllocError>
    requires { AreReached flow.now flags.now }
    ensures { IfOk result (λ table. AreWays flow.now table.items) }
{
    let mut table = vec![in alloc; Way::Nothing; flags.len()]?;
    note_all(flow, flags, table.as_mut_slice());
    Ok(table)
}

/// Notes the edges of all nodes that can be reached.
fn note_all(flow: &Flow, flags: &[bool], table: &mut [Way])
    requires reached { AreReached flow.now flags.now }
    requires nothing { table.old ≡ replicate (length flow.now.nodes) Way.Nothing }
    ensures { AreWays flow.now table.new }
{
    table[flow.entry() as usize] = Way::Several;
    for at in 0..flow.count() {
        if flags[at as usize] {
            note(table, flow.node(at), at);
        }
    }
}

/// Notes the edges of a node.
fn note(table: &mut [Way], node: FlowNode, at: u32)
    requires { NodeThere (length table.old) node }
    ensures { table.new ≡ noted node at table.old }
{
    match node {
        FlowNode::Op { next, .. } => note_edge(table, next, at),
        FlowNode::Test { yes, no, .. } => {
            note_edge(table, yes, at);
            note_edge(table, no, at);
        }
        FlowNode::Stop | FlowNode::Trap { .. } => {}
    }
}

/// Notes an edge.
fn note_edge(table: &mut [Way], to: u32, from: u32)
    requires { to < length table.old }
    ensures { table.new ≡ with_edge_to to from table.old }
{
    let known = table[to as usize];
    table[to as usize] = with_edge(known, from);
}

/// What leads to a node, with an edge more.
fn with_edge(known: Way, from: u32) -> Way
    ensures { result ≡ with_edge from known }
{
    match known {
        Way::Nothing => Way::Only(from),
        Way::Only(_) | Way::Several => Way::Several,
    }
}
