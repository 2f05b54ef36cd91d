//! Removal of dead writes.
ghost use Rattle.std.specs.Prelude.{◌≡◌, ◌<◌, ℕ, true, false, map, length, slice_get, Some, IfOk, OnOk, OnErr};
ghost use Rattle.pc_flow.specs.declared.node.FlowNode.{FlowNode};
ghost use Rattle.pc_pass.specs.Pass.{Keeps};
ghost use Rattle.pc_scalar.specs.Cleared.{WritesAreLive};
ghost use Rattle.pc_scalar.specs.LoopTests.{KeepsLoopTests};
ghost use Rattle.pc_scalar.specs.Tally.{AreMany, IsWorkedOn};
ghost use Rattle.pc_scalar.specs.models.Counted.{IsReachedAnd};
ghost use Rattle.pc_scalar.specs.models.Met.{AreReached};
ghost use Rattle.pc_scalar.specs.models.Ends.{led};
ghost use Rattle.pc_scalar.specs.models.Needed.{AreNeeded, node_needless, cleared, AreCleared, IsClearing};

use crate::ends::{chain_ends, led};
use crate::needed::{is_needless, needed};
use crate::plan::{Plan, install};
use crate::reach::reached;
use pc_flow::{Flow, FlowNode, FlowNodeList};
use pc_live::VariableSet;
use std::alloc::{AllocError, Global};

/// Clears a graph of dead writes. How many nodes were skipped.
#[tactic(auto, using(crate::proofs::Clears::clear_laws))]
pub(crate) fn clear_flow(alloc: Global, flow: &mut Flow) -> Result<u32, AllocError>
    ensures keeps { OnOk result (Keeps flow.old flow.new) }
    ensures undone { OnErr result (flow.new ≡ flow.old) }
    ensures cleared { OnOk result (WritesAreLive flow.new) }
    ensures loop_tests { OnOk result (KeepsLoopTests flow.old flow.new) }
    ensures counted { IfOk result (λ nodes. AreMany (IsWorkedOn flow.old flow.new) (length flow.old.nodes) nodes) }
{
    let plan = plan_of(alloc, flow)?;
    install(flow, &plan);
    Ok(plan.changed)
}

/// The nodes of a graph, whose edges lead past dead writes.
#[tactic(auto, using(crate::proofs::Clears::plan_laws))]
fn plan_of(alloc: Global, flow: &Flow) -> Result<Plan, AllocError>
    ensures { IfOk result (λ plan. IsClearing flow.now plan) }
{
    let sets = needed(alloc, flow)?;
    let mut table = places(alloc, flow, sets.as_slice())?;
    let ends = chain_ends(alloc, flow, table.as_mut_slice())?;
    let nodes = led_nodes(alloc, flow, ends.as_slice())?;
    let changed = skipped(alloc, flow, sets.as_slice())?;
    let entry = ends[flow.entry() as usize];
    Ok(Plan {
        nodes,
        entry,
        changed,
    })
}

/// How many nodes are skipped, of those that can be reached.
fn skipped(alloc: Global, flow: &Flow, sets: &[VariableSet]) -> Result<u32, AllocError>
    requires { AreNeeded flow.now sets.now }
    ensures { IfOk result (λ count. AreMany (IsReachedAnd (λ at. node_needless sets.now) flow.now) (length flow.now.nodes) count) }
{
    let flags = reached(alloc, flow)?;
    Ok(count_skipped(flow, sets, flags.as_slice()))
}

/// How many of the flagged nodes are skipped.
fn count_skipped(flow: &Flow, sets: &[VariableSet], flags: &[bool]) -> u32
    requires needed { AreNeeded flow.now sets.now }
    requires reached { AreReached flow.now flags.now }
    ensures { AreMany (IsReachedAnd (λ at. node_needless sets.now) flow.now) (length flow.now.nodes) result }
{
    let mut count = 0;
    for at in 0..flow.count() {
        if is_skipped(flow, sets, flags, at) {
            count += 1;
        }
    }
    count
}

/// Whether a node can be reached and is skipped.
#[tactic(auto, using(crate::proofs::Clears::place_laws, crate::proofs::Tallies::counting_laws))]
fn is_skipped(flow: &Flow, sets: &[VariableSet], flags: &[bool], at: u32) -> bool
    requires needed { AreNeeded flow.now sets.now }
    requires reached { AreReached flow.now flags.now }
    requires there { at < length flow.now.nodes }
    ensures counted { result ≡ true → IsReachedAnd (λ at. node_needless sets.now) flow.now at }
    ensures left { result ≡ false → IsReachedAnd (λ at. node_needless sets.now) flow.now at → ⊥ }
{
    if !flags[at as usize] {
        return false;
    }
    match flow.node(at) {
        FlowNode::Op { item, next } => is_needless(&item, sets[next as usize]),
        FlowNode::Test { .. } | FlowNode::Stop | FlowNode::Trap { .. } => false,
    }
}

/// The node that takes each node's place.
fn places(alloc: Global, flow: &Flow, sets: &[VariableSet]) -> Result<Vec<u32>, AllocError>
    requires { AreNeeded flow.now sets.now }
    ensures { IfOk result (λ table. AreCleared flow.now sets.now table.items) }
{
    let count = flow.count();
    let mut table = Vec::with_capacity(alloc, count as usize)?;
    for at in 0..count {
        table.push(place(flow, sets, at))?;
    }
    Ok(table)
}

/// The node that takes a node's place: the one after an item that is needless, and else the node itself.
#[tactic(auto, using(crate::proofs::Clears::place_laws))]
fn place(flow: &Flow, sets: &[VariableSet], at: u32) -> u32
    requires needed { AreNeeded flow.now sets.now }
    requires there { at < length flow.now.nodes }
    ensures { (node : FlowNode) → slice_get flow.now.nodes at ≡ Some node → result ≡ cleared sets.now at node }
{
    match flow.node(at) {
        FlowNode::Op { item, next } => {
            if is_needless(&item, sets[next as usize]) {
                next
            } else {
                at
            }
        }
        FlowNode::Test { .. } | FlowNode::Stop | FlowNode::Trap { .. } => at,
    }
}

/// The nodes of a graph, with edges to the ends.
fn led_nodes(alloc: Global, flow: &Flow, ends: &[u32]) -> Result<FlowNodeList, AllocError>
    requires { length ends.now ≡ length flow.now.nodes }
    ensures { IfOk result (λ nodes. nodes ≡ map (λ node. led ends.now node) flow.now.nodes) }
{
    let mut nodes = FlowNodeList::new(alloc);
    for at in 0..flow.count() {
        nodes.push(led(ends, flow.node(at)))?;
    }
    Ok(nodes)
}
