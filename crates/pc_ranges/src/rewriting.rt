//! Nodes are rewritten by what is known there, and tests that are decided are skipped.
ghost use Rattle.std.specs.Prelude.{◌≡◌, ◌<◌, true, false, length, slice_get, Some, IfOk, OnOk, OnErr};
ghost use Rattle.std.specs.List.{list_any};
ghost use Rattle.pc_flow.specs.FlowGraph.{IsFlow};
ghost use Rattle.pc_pass.specs.Pass.{Keeps};
ghost use Rattle.pc_word.specs.Items.{operands_of};
ghost use Rattle.pc_scalar.specs.LoopTests.{KeepsLoopTests};
ghost use Rattle.pc_scalar.specs.Tally.{AreMany, IsWorkedOn};
ghost use Rattle.pc_scalar.specs.models.Met.{AreReached};
ghost use Rattle.pc_scalar.specs.models.Counted.{IsReachedAnd};
ghost use Rattle.pc_ranges.specs.Bounds.{IsKept, bounds_at};
ghost use Rattle.pc_ranges.specs.Interval.{operand_interval};
ghost use Rattle.pc_ranges.specs.Over.{over};
ghost use Rattle.pc_ranges.specs.Ranged.{IsRanged};
ghost use Rattle.pc_ranges.specs.models.Rewriting.{is_settled, settled, settled_item, settled_node, item_changes, taken, node_changes, AreTaken, IsRangedNodes, IsRanging};

use crate::bounds::Bounds;
use crate::interval::{Interval, operand_interval};
use crate::keeping::is_kept;
use crate::making::made;
use crate::over::over;
use pc_flow::{Flow, FlowNode, FlowNodeList};
use pc_scalar::{Plan, chain_ends, install, led, reached};
use pc_word::{Item, OpCode, Operand, Operands};
use std::alloc::{AllocError, Global};

/// Rewrites a graph by intervals. How many nodes were changed or skipped.
#[tactic(auto, using(crate::proofs::Ranged::range_laws))]
pub(crate) fn range_flow(alloc: Global, flow: &mut Flow) -> Result<u32, AllocError>
    ensures keeps { OnOk result (Keeps flow.old flow.new) }
    ensures undone { OnErr result (flow.new ≡ flow.old) }
    ensures ranged { OnOk result (IsRanged flow.old flow.new) }
    ensures loop_tests { OnOk result (KeepsLoopTests flow.old flow.new) }
    ensures counted { IfOk result (λ nodes. AreMany (IsWorkedOn flow.old flow.new) (length flow.old.nodes) nodes) }
{
    let map = checked_map(alloc, flow)?;
    let plan = plan_of(alloc, flow, map.as_slice())?;
    install(flow, &plan);
    Ok(plan.changed)
}

/// The map of a graph, if every edge keeps it, and else one in which nothing is known.
#[tactic(auto, using(crate::proofs::Kept::no_map))]
fn checked_map(alloc: Global, flow: &Flow) -> Result<Vec<Bounds>, AllocError>
    ensures { IfOk result (λ map. IsKept flow.now map.items) }
{
    let map = made(alloc, flow)?;
    if is_kept(flow, map.as_slice()) {
        Ok(map)
    } else {
        Ok(Vec::new(alloc))
    }
}

/// The nodes of a graph, rewritten, whose edges lead past tests that are decided.
#[tactic(auto, using(crate::proofs::Ranged::plan_laws))]
fn plan_of(alloc: Global, flow: &Flow, map: &[Bounds]) -> Result<Plan, AllocError>
    requires { IsKept flow.now map.now }
    ensures { IfOk result (λ plan. IsRanging flow.now map.now plan) }
{
    let mut table = places(alloc, flow, map)?;
    let ends = chain_ends(alloc, flow, table.as_mut_slice())?;
    let nodes = settled_nodes(alloc, flow, map, ends.as_slice())?;
    let flags = reached(alloc, flow)?;
    let entry = ends[flow.entry() as usize];
    Ok(Plan {
        nodes,
        entry,
        changed: count_changes(flow, map, flags.as_slice()),
    })
}

/// How many nodes are changed or skipped, of those that can be reached.
fn count_changes(flow: &Flow, map: &[Bounds], flags: &[bool]) -> u32
    requires { AreReached flow.now flags.now }
    ensures { AreMany (IsReachedAnd (λ at node. node_changes map.now at node) flow.now) (length flow.now.nodes) result }
{
    let mut count = 0;
    for at in 0..flow.count() {
        if is_changed(flow, map, flags, at) {
            count += 1;
        }
    }
    count
}

/// Whether a node can be reached and is changed or skipped.
#[tactic(auto, using(pc_scalar::proofs::Tallies::counting_laws))]
fn is_changed(flow: &Flow, map: &[Bounds], flags: &[bool], at: u32) -> bool
    requires reached { AreReached flow.now flags.now }
    requires there { at < length flow.now.nodes }
    ensures counted { result ≡ true → IsReachedAnd (λ at node. node_changes map.now at node) flow.now at }
    ensures left { result ≡ false → IsReachedAnd (λ at node. node_changes map.now at node) flow.now at → ⊥ }
{
    if !flags[at as usize] {
        return false;
    }
    node_changes(map, at, flow.node(at))
}

/// The interval of an operand at a node.
fn interval_at_node(map: &[Bounds], at: u32, operand: Operand) -> Interval
    ensures { result ≡ operand_interval (bounds_at map.now at).intervals operand }
{
    match map.get(at as usize) {
        Some(bounds) => operand_interval(&bounds.intervals, operand),
        None => operand_interval(&[], operand),
    }
}

/// Whether an operand is a variable of a single word.
fn is_settled(map: &[Bounds], at: u32, operand: Operand) -> bool
    ensures { result ≡ is_settled (bounds_at map.now at).intervals operand }
{
    match operand {
        Operand::Name(_) => interval_at_node(map, at, operand).is_single(),
        Operand::Lit(_) => false,
    }
}

/// The word of a variable of a single word, and each other operand itself.
fn settled(map: &[Bounds], at: u32, operand: Operand) -> Operand
    ensures { result ≡ settled (bounds_at map.now at).intervals operand }
{
    if is_settled(map, at, operand) {
        Operand::Lit(interval_at_node(map, at, operand).low)
    } else {
        operand
    }
}

/// The interval of what an operator gives at a node.
fn over_at(map: &[Bounds], at: u32, op: OpCode, left: Operand, right: Operand) -> Interval
    ensures { result ≡ over op (operand_interval (bounds_at map.now at).intervals left) (operand_interval (bounds_at map.now at).intervals right) }
{
    over(
        op,
        interval_at_node(map, at, left),
        interval_at_node(map, at, right),
    )
}

/// An item: a copy of the only word that its operator can give, or with literals for variables of a
/// single word.
fn settled_item(map: &[Bounds], at: u32, item: Item) -> Item
    ensures { result ≡ settled_item (bounds_at map.now at).intervals item }
{
    if let Item::Bin {
        op,
        dest,
        left,
        right,
    } = item
    {
        let interval = over_at(map, at, op, left, right);
        if interval.is_single() {
            return Item::Copy {
                dest,
                from: Operand::Lit(interval.low),
            };
        }
    }
    item.map_operands(|operand| settled(map, at, operand))
}

/// Whether that is another item.
fn item_changes(map: &[Bounds], at: u32, item: Item) -> bool
    ensures { result ≡ item_changes (bounds_at map.now at).intervals item }
{
    if let Item::Bin {
        op,
        left,
        right,
        ..
    } = item
    {
        if over_at(map, at, op, left, right).is_single() {
            return true;
        }
    }
    match item.operands() {
        Operands::None => false,
        Operands::One(one) => is_settled(map, at, one),
        Operands::Two(one, other) => is_settled(map, at, one) || is_settled(map, at, other),
    }
}

/// A node, with its item or its operand so.
fn settled_node(map: &[Bounds], at: u32, node: FlowNode) -> FlowNode
    ensures { result ≡ settled_node map.now at node }
{
    match node {
        FlowNode::Op { item, next } => FlowNode::Op {
            item: settled_item(map, at, item),
            next,
        },
        FlowNode::Test { on, yes, no, turn } => FlowNode::Test {
            on: settled(map, at, on),
            yes,
            no,
            turn,
        },
        FlowNode::Stop | FlowNode::Trap { .. } => node,
    }
}

/// The node that takes a node's place: the side that is taken of a test that is decided, if it is no
/// loop's, and else the node itself.
fn taken(map: &[Bounds], at: u32, node: FlowNode) -> u32
    ensures { result ≡ taken map.now at node }
{
    match node {
        FlowNode::Test {
            on,
            yes,
            no,
            turn: None,
        } => {
            let interval = interval_at_node(map, at, on);
            if interval.lacks_zero() {
                yes
            } else if interval.is_zero() {
                no
            } else {
                at
            }
        }
        _ => at,
    }
}

/// Whether a node is changed or skipped.
fn node_changes(map: &[Bounds], at: u32, node: FlowNode) -> bool
    ensures { result ≡ node_changes map.now at node }
{
    match node {
        FlowNode::Op { item, .. } => item_changes(map, at, item),
        FlowNode::Test { on, turn, .. } => {
            let interval = interval_at_node(map, at, on);
            is_settled(map, at, on)
                || (turn.is_none() && (interval.lacks_zero() || interval.is_zero()))
        }
        FlowNode::Stop | FlowNode::Trap { .. } => false,
    }
}

/// The node that takes each node's place.
fn places(alloc: Global, flow: &Flow, map: &[Bounds]) -> Result<Vec<u32>, AllocError>
    ensures { IfOk result (λ table. AreTaken flow.now map.now table.items) }
{
    let count = flow.count();
    let mut table = Vec::with_capacity(alloc, count as usize)?;
    for at in 0..count {
        table.push(taken(map, at, flow.node(at)))?;
    }
    Ok(table)
}

/// The nodes of a graph, rewritten, with edges to the ends.
fn settled_nodes(
    alloc: Global,
    flow: &Flow,
    map: &[Bounds],
    ends: &[u32],
) -> Result<FlowNodeList, AllocError>
    requires { length ends.now ≡ length flow.now.nodes }
    ensures { IfOk result (λ nodes. IsRangedNodes flow.now map.now ends.now nodes) }
{
    let mut nodes = FlowNodeList::new(alloc);
    for at in 0..flow.count() {
        nodes.push(led(ends, settled_node(map, at, flow.node(at))))?;
    }
    Ok(nodes)
}
