//! The nodes of a graph that can be reached.
ghost use Rattle.std.specs.Prelude.{◌≡◌, ◌<◌, ℕ, Some, false, length, replicate, slice_get, IfOk, OnOk};
ghost use Rattle.pc_flow.specs.declared.node.FlowNode.{FlowNode};
ghost use Rattle.pc_flow.specs.FlowGraph.{IsFlow};
ghost use Rattle.pc_scalar.specs.models.Met.{edges_of, Meets, MeetsAll, AreReached};

use pc_flow::{Flow, FlowNode};
use pc_word::Seq;
use std::alloc::{AllocError, Global};

/// Which nodes of a graph can be reached, by their numbers.
pub fn reached(alloc: Global, flow: &Flow) -> Result<Seq<bool>, AllocError>
    ensures { IfOk result (λ flags. AreReached flow.now flags) }
{
    let mut flags = no_flags(alloc, flow.count())?;
    let mut met = Seq::new(alloc);
    meet(&mut flags, &mut met, flow.entry())?;
    let mut done = 0;
    while done < met.len() {
        let at = met.as_slice()[done];
        meet_behind(flow, &mut flags, &mut met, at)?;
        done += 1;
    }
    Ok(flags)
}

/// So many nodes that are not flagged.
fn no_flags(alloc: Global, count: u32) -> Result<Seq<bool>, AllocError>
    ensures { IfOk result (λ flags. flags ≡ replicate count false) }
{
    let items = vec![in alloc; false; count as usize]?;
    Ok(Seq::from_vec(items))
}

/// Meets the nodes to which the edges of a node lead.
fn meet_behind(
    flow: &Flow,
    flags: &mut Seq<bool>,
    met: &mut Seq<u32>,
    at: u32,
) -> Result<(), AllocError>
    requires kept { IsFlow flow.now }
    requires as_many { length flags.old ≡ length flow.now.nodes }
    requires there { at < length flow.now.nodes }
    ensures { OnOk result ((node : FlowNode) → slice_get flow.now.nodes at ≡ Some node → MeetsAll (edges_of node) flags.old flags.new met.old met.new) }
{
    match flow.node(at) {
        FlowNode::Op { next, .. } => {
            meet(flags, met, next)?;
            Ok(())
        }
        FlowNode::Test { yes, no, .. } => {
            meet(flags, met, yes)?;
            meet(flags, met, no)?;
            Ok(())
        }
        FlowNode::Stop => Ok(()),
        FlowNode::Trap { .. } => Ok(()),
    }
}

/// Meets a node: where it was not met before, it is flagged and appended to those that were.
fn meet(flags: &mut Seq<bool>, met: &mut Seq<u32>, node: u32) -> Result<(), AllocError>
    requires { node < length flags.old }
    ensures { OnOk result (Meets flags.old flags.new met.old met.new node) }
{
    if flags.as_slice()[node as usize] {
        return Ok(());
    }
    met.push(node)?;
    flags.set(node as usize, true);
    Ok(())
}
