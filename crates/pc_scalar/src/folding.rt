//! Folding of constants.
ghost use Rattle.std.specs.Prelude.{◌≡◌, ◌<◌, true, false, map, length, IfOk, OnOk, OnErr};
ghost use Rattle.pc_pass.specs.Pass.{Keeps};
ghost use Rattle.pc_scalar.specs.Folded.{IsFolded, is_foldable};
ghost use Rattle.pc_scalar.specs.LoopTests.{KeepsLoopTests};
ghost use Rattle.pc_scalar.specs.Tally.{AreMany, IsWorkedOn};
ghost use Rattle.pc_scalar.specs.models.Counted.{IsReachedAnd};
ghost use Rattle.pc_scalar.specs.models.Met.{AreReached};
ghost use Rattle.pc_scalar.specs.models.Ends.{led};
ghost use Rattle.pc_scalar.specs.models.Folding.{folded, taken, AreTaken, IsFolding};

use crate::ends::{chain_ends, led};
use crate::plan::{Plan, install};
use crate::reach::reached;
use pc_flow::{Flow, FlowNode, FlowNodeList};
use pc_word::{Item, Operand, apply};
use std::alloc::{AllocError, Global};

/// Folds a graph. How many nodes were changed or skipped.
#[tactic(auto, using(crate::proofs::Folds::fold_laws))]
pub(crate) fn fold_flow(alloc: Global, flow: &mut Flow) -> Result<u32, AllocError>
    ensures keeps { OnOk result (Keeps flow.old flow.new) }
    ensures undone { OnErr result (flow.new ≡ flow.old) }
    ensures folded { OnOk result (IsFolded flow.new) }
    ensures loop_tests { OnOk result (KeepsLoopTests flow.old flow.new) }
    ensures counted { IfOk result (λ nodes. AreMany (IsWorkedOn flow.old flow.new) (length flow.old.nodes) nodes) }
{
    let plan = plan_of(alloc, flow)?;
    install(flow, &plan);
    Ok(plan.changed)
}

/// The folded nodes of a graph, whose edges lead past tests of literals.
#[tactic(auto, using(crate::proofs::Folds::plan_laws))]
fn plan_of(alloc: Global, flow: &Flow) -> Result<Plan, AllocError>
    ensures { IfOk result (λ plan. IsFolding flow.now plan) }
{
    let mut table = places(alloc, flow)?;
    let ends = chain_ends(alloc, flow, table.as_mut_slice())?;
    let nodes = folded_nodes(alloc, flow, ends.as_slice())?;
    let flags = reached(alloc, flow)?;
    let entry = ends[flow.entry() as usize];
    Ok(Plan {
        nodes,
        entry,
        changed: foldable(flow, flags.as_slice()),
    })
}

/// How many nodes folding changes or skips, of those that can be reached.
fn foldable(flow: &Flow, flags: &[bool]) -> u32
    requires { AreReached flow.now flags.now }
    ensures { AreMany (IsReachedAnd (λ at. is_foldable) flow.now) (length flow.now.nodes) result }
{
    let mut count = 0;
    for at in 0..flow.count() {
        if is_folded(flow, flags, at) {
            count += 1;
        }
    }
    count
}

/// Whether a node can be reached and is changed or skipped.
#[tactic(auto, using(crate::proofs::Tallies::counting_laws))]
fn is_folded(flow: &Flow, flags: &[bool], at: u32) -> bool
    requires reached { AreReached flow.now flags.now }
    requires there { at < length flow.now.nodes }
    ensures counted { result ≡ true → IsReachedAnd (λ at. is_foldable) flow.now at }
    ensures left { result ≡ false → IsReachedAnd (λ at. is_foldable) flow.now at → ⊥ }
{
    if !flags[at as usize] {
        return false;
    }
    is_foldable(flow.node(at))
}

/// Whether folding changes or skips a node.
fn is_foldable(node: FlowNode) -> bool
    ensures { result ≡ is_foldable node }
{
    match node {
        FlowNode::Op {
            item: Item::Bin {
                left: Operand::Lit(_),
                right: Operand::Lit(_),
                ..
            },
            ..
        } => true,
        FlowNode::Test {
            on: Operand::Lit(_),
            turn: None,
            ..
        } => true,
        _ => false,
    }
}

/// The node that takes each node's place.
fn places(alloc: Global, flow: &Flow) -> Result<Vec<u32>, AllocError>
    ensures { IfOk result (λ table. AreTaken flow.now table.items) }
{
    let count = flow.count();
    let mut table = Vec::with_capacity(alloc, count as usize)?;
    for at in 0..count {
        table.push(taken(at, flow.node(at)))?;
    }
    Ok(table)
}

/// The node that takes a node's place: the side that is taken of a test of a literal, if it is no
/// loop's, and else the node itself.
fn taken(at: u32, node: FlowNode) -> u32
    ensures { result ≡ taken at node }
{
    match node {
        FlowNode::Test {
            on: Operand::Lit(value),
            yes,
            no,
            turn: None,
        } => { if value != 0 { yes } else { no } }
        _ => at,
    }
}

/// The nodes of a graph, folded, with edges to the ends.
fn folded_nodes(alloc: Global, flow: &Flow, ends: &[u32]) -> Result<FlowNodeList, AllocError>
    requires { length ends.now ≡ length flow.now.nodes }
    ensures { IfOk result (λ nodes. nodes ≡ map (λ node. led ends.now (folded node)) flow.now.nodes) }
{
    let mut nodes = FlowNodeList::new(alloc);
    for at in 0..flow.count() {
        nodes.push(led(ends, folded(flow.node(at))))?;
    }
    Ok(nodes)
}

/// A node that copies what it would compute of two literals.
fn folded(node: FlowNode) -> FlowNode
    ensures { result ≡ folded node }
{
    match node {
        FlowNode::Op {
            item: Item::Bin {
                op,
                dest,
                left: Operand::Lit(left),
                right: Operand::Lit(right),
            },
            next,
        } => FlowNode::Op {
            item: Item::Copy {
                dest,
                from: Operand::Lit(apply(op, left, right)),
            },
            next,
        },
        _ => node,
    }
}
