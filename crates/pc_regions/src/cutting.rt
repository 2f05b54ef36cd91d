//! The regions of a graph, one after the other, in the order in which their heads are first named.
ghost use Rattle.std.specs.Prelude.{◌≡◌, ◌<◌, ◌≤◌, length, IfOk};
ghost use Rattle.pc_flow.specs.FlowGraph.{IsFlow, variables};
ghost use Rattle.pc_live.specs.Liveness.{IsLivenessOf};
ghost use Rattle.pc_table.specs.Table.{table_tree, table_region, table_regions};
ghost use Rattle.pc_regions.specs.Cut.{nexts_of};
ghost use Rattle.pc_regions.specs.models.Marks.{AreHeads};
ghost use Rattle.pc_regions.specs.models.Cutting.{TreeFor, BehindFor, RegionFor, MayBeTaken, Names, live_below, AreRegions};

use crate::heads::{Heads, headed_loop};
use crate::numbering::Numbering;
use pc_flow::{Flow, FlowNode};
use pc_live::Liveness;
use pc_table::{MOST_REGION_NODES, Region, RegionList, RegionTree, VarList};
use pc_word::{MOST_SCALARS, MOST_TEMPORARIES};
use std::alloc::{AllocError, Global};

/// The regions of a graph, in the order in which their heads are first named.
pub(crate) fn cut(
    alloc: Global,
    flow: &Flow,
    live: &Liveness,
    heads: &Heads,
) -> Result<RegionList, AllocError>
    requires kept { IsFlow flow.now }
    requires live { IsLivenessOf flow.now live.now }
    requires heads { AreHeads flow.now heads.now.marks.items heads.now.headers.items }
    ensures { IfOk result (λ regions. AreRegions flow.now heads.now.marks.items (table_regions regions)) }
{
    let mut found = Numbering::new(alloc, flow.count())?;
    found.number(flow.entry())?;
    let mut regions = RegionList::new(alloc);
    while let Some(head) = found.node(regions.len()) {
        let region = region_of(alloc, flow, live, heads, head, &mut found)?;
        regions.push(region)?;
    }
    Ok(regions)
}

/// The region of a head.
#[tactic(auto, using(crate::proofs::RegionsCut::region))]
fn region_of(
    alloc: Global,
    flow: &Flow,
    live: &Liveness,
    heads: &Heads,
    head: u32,
    found: &mut Numbering,
) -> Result<Region, AllocError>
    requires kept { IsFlow flow.now }
    requires live { IsLivenessOf flow.now live.now }
    requires heads { AreHeads flow.now heads.now.marks.items heads.now.headers.items }
    requires nodes { length found.old.numbers ≡ length flow.now.nodes }
    requires there { head < length flow.now.nodes }
    ensures head { IfOk result (λ region. region.head ≡ head) }
    ensures region { IfOk result (λ region. RegionFor flow.now heads.now.marks.items found.new.order (table_region region)) }
    ensures names { IfOk result (λ region. Names (nexts_of (table_tree region.tree)) found.old found.new) }
{
    let mut room = MOST_REGION_NODES;
    let tree = tree_at(alloc, flow, &heads.marks, head, &mut room, found)?;
    let live = live_below(alloc, live, head, MOST_SCALARS + MOST_TEMPORARIES)?;
    Ok(Region {
        head,
        tree,
        live,
        inside: flow.inside(head),
        heads: headed_loop(flow, &heads.headers, head),
    })
}

/// The tree of a node that is taken, with room for so many nodes, this one among them.
#[tactic(auto, using(crate::proofs::TreesCut::trees))]
#[cycle(tree)]
fn tree_at(
    alloc: Global,
    flow: &Flow,
    marks: &[bool],
    at: u32,
    room: &mut u32,
    found: &mut Numbering,
) -> Result<RegionTree, AllocError>
    requires kept { IsFlow flow.now }
    requires marks { length marks.now ≡ length flow.now.nodes }
    requires nodes { length found.old.numbers ≡ length flow.now.nodes }
    requires there { at < length flow.now.nodes }
    requires room { 1 ≤ room.old }
    ensures tree { IfOk result (λ tree. TreeFor flow.now marks.now found.new.order room.old at (table_tree tree) room.new) }
    ensures names { IfOk result (λ tree. Names (nexts_of (table_tree tree)) found.old found.new) }
    ensures less { room.new ≤ room.old }
{
    *room -= 1;
    match flow.node(at) {
        FlowNode::Op { item, next } => {
            let next = Box::new(alloc, tree_behind(alloc, flow, marks, next, room, found)?)?;
            Ok(RegionTree::Step {
                origin: at,
                item,
                next,
            })
        }
        FlowNode::Test { on, yes, no, .. } => {
            let yes = Box::new(alloc, tree_behind(alloc, flow, marks, yes, room, found)?)?;
            let no = Box::new(alloc, tree_behind(alloc, flow, marks, no, room, found)?)?;
            Ok(RegionTree::Test {
                origin: at,
                on,
                yes,
                no,
            })
        }
        FlowNode::Stop => Ok(RegionTree::Stop),
        FlowNode::Trap { kind, line } => Ok(RegionTree::Trap { kind, line }),
    }
}

/// What stands where an edge leads to a node: its tree, or the region that begins with it.
#[tactic(auto, using(crate::proofs::TreesCut::edges))]
#[cycle(tree)]
fn tree_behind(
    alloc: Global,
    flow: &Flow,
    marks: &[bool],
    to: u32,
    room: &mut u32,
    found: &mut Numbering,
) -> Result<RegionTree, AllocError>
    requires kept { IsFlow flow.now }
    requires marks { length marks.now ≡ length flow.now.nodes }
    requires nodes { length found.old.numbers ≡ length flow.now.nodes }
    requires there { to < length flow.now.nodes }
    ensures tree { IfOk result (λ tree. BehindFor flow.now marks.now found.new.order room.old to (table_tree tree) room.new) }
    ensures names { IfOk result (λ tree. Names (nexts_of (table_tree tree)) found.old found.new) }
    ensures less { room.new ≤ room.old }
{
    if may_be_taken(marks, to, *room) {
        return tree_at(alloc, flow, marks, to, room, found);
    }
    let region = found.number(to)?;
    Ok(RegionTree::Next { region })
}

/// Whether a node is no head, and there is room for it.
fn may_be_taken(marks: &[bool], to: u32, room: u32) -> bool
    requires { to < length marks.now }
    ensures { MayBeTaken marks.now to room result }
{
    if marks[to as usize] {
        return false;
    }
    room > 0
}

/// The variables below a number that are live at a node, in rising order.
#[tactic(auto, using(crate::proofs::LiveLists::live))]
fn live_below(alloc: Global, live: &Liveness, node: u32, end: u32) -> Result<VarList, AllocError>
    requires node { node < length live.now }
    requires end { end ≤ variables }
    ensures { IfOk result (λ list. list ≡ live_below live.now node end) }
{
    let mut list = VarList::new(alloc);
    for variable in 0..end {
        if live.live_at(node, variable) {
            list.push(variable)?;
        }
    }
    Ok(list)
}
