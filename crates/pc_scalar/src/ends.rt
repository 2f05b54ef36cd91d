//! Where edges lead to once nodes are skipped.
ghost use Rattle.std.specs.Prelude.{◌≡◌, ◌<◌, ℕ, IfOk, length, slice_index};
ghost use Rattle.pc_scalar.specs.models.Ends.{FallsAlong, AreEnds, led, NodeThere};

use pc_flow::{Flow, FlowNode};
use std::alloc::{AllocError, Global};

/// The end of each node's chain in a table that says which node takes its place, itself where it stays.
///
/// Chains are shortened on the way, so all of them together take little more than one step a node.
pub fn chain_ends(alloc: Global, flow: &Flow, table: &mut [u32]) -> Result<Vec<u32>, AllocError>
    requires { FallsAlong flow.now table.old }
    ensures { IfOk result (λ ends. AreEnds table.old ends.items) }
{
    let mut ends = Vec::with_capacity(alloc, table.len())?;
    for from in 0..flow.count() {
        let mut at = from;
        while table[at as usize] != at {
            let next = table[at as usize];
            let far = table[next as usize];
            table[at as usize] = far;
            at = far;
        }
        ends.push(at)?;
    }
    Ok(ends)
}

/// A node whose edges lead to the ends.
pub fn led(ends: &[u32], node: FlowNode) -> FlowNode
    requires { NodeThere (length ends.now) node }
    ensures { result ≡ led ends.now node }
{
    match node {
        FlowNode::Op { item, next } => FlowNode::Op {
            item,
            next: ends[next as usize],
        },
        FlowNode::Test { on, yes, no, turn } => FlowNode::Test {
            on,
            yes: ends[yes as usize],
            no: ends[no as usize],
            turn,
        },
        FlowNode::Stop | FlowNode::Trap { .. } => node,
    }
}
