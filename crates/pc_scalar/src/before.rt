//! Which node leads to each, where one item alone does.
ghost use Rattle.std.specs.Prelude.{◌≡◌, length, replicate, IfOk};
ghost use Rattle.pc_scalar.specs.models.Met.{AreReached};
ghost use Rattle.pc_scalar.specs.models.Before.{with_edge, noted, AreBefore};
ghost use Rattle.pc_scalar.specs.models.Ends.{NodeThere};

use pc_flow::{Flow, FlowNode};
use pc_word::Seq;
use std::alloc::{AllocError, Global};

/// What leads to a node from nodes that can be reached.
#[derive(Clone, Copy, Debug, PartialEq, Eq)]
pub(crate) enum Predecessor {
    /// No edge.
    Nothing,
    /// One edge, from the item of this node.
    Only(u32),
    /// A test, several edges, or the beginning of the graph.
    Several,
}

/// What leads to each node of a graph.
pub(crate) fn predecessors(
    alloc: Global,
    flow: &Flow,
    flags: &[bool],
) -> Result<Vec<Predecessor>, AllocError>
    requires { AreReached flow.now flags.now }
    ensures { IfOk result (λ table. AreBefore flow.now table.items) }
{
    let mut table = vec![in alloc; Predecessor::Nothing; flags.len()]?;
    note_all(flow, flags, table.as_mut_slice());
    Ok(table)
}

/// Notes the edges of all nodes that can be reached.
fn note_all(flow: &Flow, flags: &[bool], table: &mut [Predecessor])
    requires reached { AreReached flow.now flags.now }
    requires nothing { table.old ≡ replicate (length flow.now.nodes) Predecessor.Nothing }
    ensures { AreBefore flow.now table.new }
{
    table[flow.entry() as usize] = Predecessor::Several;
    for at in 0..flow.count() {
        if flags[at as usize] {
            note(table, flow.node(at), at);
        }
    }
}

/// Notes the edges of a node.
fn note(table: &mut [Predecessor], node: FlowNode, at: u32)
    requires { NodeThere (length table.old) node }
    ensures { table.new ≡ noted node at table.old }
{
    match node {
        FlowNode::Op { next, .. } => {
            let known = table[next as usize];
            table[next as usize] = with_edge(known, at);
        }
        FlowNode::Test { yes, no, .. } => {
            table[yes as usize] = Predecessor::Several;
            table[no as usize] = Predecessor::Several;
        }
        FlowNode::Stop | FlowNode::Trap { .. } => {}
    }
}

/// What leads to a node, with the edge of an item more.
fn with_edge(known: Predecessor, from: u32) -> Predecessor
    ensures { result ≡ with_edge from known }
{
    match known {
        Predecessor::Nothing => Predecessor::Only(from),
        Predecessor::Only(_) | Predecessor::Several => Predecessor::Several,
    }
}
