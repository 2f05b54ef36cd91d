//! The walk along all trails, on which loads are forwarded.
ghost use Rattle.std.specs.Prelude.{◌≡◌, ◌<◌, ◌≤◌, ◌++◌, ◌∷◌, ℕ, [], true, false, Some, length, slice_get, slice_index_or, IfOk, OnOk};
ghost use Rattle.pc_flow.specs.declared.node.FlowNode.{FlowNode};
ghost use Rattle.pc_flow.specs.FlowGraph.{IsFlow};
ghost use Rattle.pc_scalar.specs.models.Met.{edges_of};
ghost use Rattle.pc_forward.specs.Trail.{IsOnlyWay};
ghost use Rattle.pc_forward.specs.models.Walking.{IsEnd, Ends, Walked, StaysDone, weight, begins, AreBegun, follows, Adds, AddsAll, is_load, is_copy, BecameCopy, IsForwarding};
ghost use Rattle.pc_forward.specs.models.Ways.{AreWays};
ghost use Rattle.pc_scalar.specs.Tally.{AreMany};

use crate::forwarding::forwarded;
use crate::trail::Trail;
use crate::ways::{Way, ways};
use pc_flow::{Flow, FlowNode, FlowNodeList};
use pc_scalar::{Plan, nodes_of, reached};
use pc_word::{Item, Seq};
use std::alloc::{AllocError, Global};

/// A node that waits to be visited, with what the trail to it tells.
#[derive(Debug, Drop)]
pub(crate) struct Waiting {
    pub at: u32,
    pub trail: Trail,
}

/// The nodes that are left, the nodes as they are by now, and those that wait.
#[derive(Debug, Drop)]
struct Walk {
    left: Seq<bool>,
    nodes: FlowNodeList,
    waiting: Seq<Waiting>,
}

/// The nodes of a graph, of which loads were forwarded.
pub(crate) fn plan_of(alloc: Global, flow: &Flow) -> Result<Plan, AllocError>
    ensures { IfOk result (λ plan. IsForwarding flow.now plan) }
{
    let left = reached(alloc, flow)?;
    let table = ways(alloc, flow, left.as_slice())?;
    let nodes = nodes_of(alloc, flow)?;
    let mut walk = Walk {
        left,
        nodes,
        waiting: Seq::new(alloc),
    };
    walk.all(alloc, flow, table.as_slice())?;
    let changed = changes(flow, &walk.nodes);
    Ok(Plan {
        nodes: walk.nodes,
        entry: flow.entry(),
        changed,
    })
}

impl Walk {
    /// Walks along each trail.
    fn all(&mut self, alloc: Global, flow: &Flow, table: &[Way]) -> Result<(), AllocError>
        requires table { AreWays flow.now table.now }
        requires none { self.old.waiting ≡ [] }
        requires walked { Walked flow.now self.old.left self.old.nodes [] }
        ensures walked { OnOk result (Walked flow.now self.new.left self.new.nodes []) }
        ensures heads { OnOk result (AreBegun table.now (length flow.now.nodes) self.new.left) }
    {
        for head in 0..flow.count() {
            self.start(alloc, flow, table, head)?;
        }
        Ok(())
    }

    /// Walks along the trails from a node, if it begins one.
    fn start(
        &mut self,
        alloc: Global,
        flow: &Flow,
        table: &[Way],
        head: u32,
    ) -> Result<(), AllocError>
        requires table { AreWays flow.now table.now }
        requires there { head < length flow.now.nodes }
        requires none { self.old.waiting ≡ [] }
        requires walked { Walked flow.now self.old.left self.old.nodes [] }
        ensures walked { OnOk result (Walked flow.now self.new.left self.new.nodes []) }
        ensures none { OnOk result (self.new.waiting ≡ []) }
        ensures still { OnOk result (StaysDone self.old.left self.new.left) }
        ensures begun { OnOk result (begins (slice_index_or table.now head Way.Nothing) ≡ true → slice_get self.new.left head ≡ Some false) }
    {
        if !begins(table[head as usize]) {
            return Ok(());
        }
        let trail = Trail::first(alloc)?;
        self.visit(alloc, flow, table, head, trail)?;
        self.rest(alloc, flow, table)
    }

    /// Visits the nodes that wait, until none does.
    fn rest(&mut self, alloc: Global, flow: &Flow, table: &[Way]) -> Result<(), AllocError>
        requires table { AreWays flow.now table.now }
        requires walked { Walked flow.now self.old.left self.old.nodes self.old.waiting }
        ensures walked { OnOk result (Walked flow.now self.new.left self.new.nodes []) }
        ensures none { OnOk result (self.new.waiting ≡ []) }
        ensures still { OnOk result (StaysDone self.old.left self.new.left) }
    {
        while let Some(Waiting { at, trail }) = self.waiting.pop() {
            self.visit(alloc, flow, table, at, trail)?;
        }
        Ok(())
    }

    /// Visits a node, if it is left.
    fn visit(
        &mut self,
        alloc: Global,
        flow: &Flow,
        table: &[Way],
        at: u32,
        mut trail: Trail,
    ) -> Result<(), AllocError>
        requires table { AreWays flow.now table.now }
        requires walked { Walked flow.now self.old.left self.old.nodes (self.old.waiting ++ record { at = at; trail = trail } ∷ []) }
        ensures walked { OnOk result (Walked flow.now self.new.left self.new.nodes self.new.waiting) }
        ensures still { OnOk result (StaysDone self.old.left self.new.left) }
        ensures done { OnOk result (slice_get self.new.left at ≡ Some false) }
        ensures lighter { OnOk result (weight self.new.left self.new.waiting ≤ weight self.old.left self.old.waiting) }
    {
        if !self.left.as_slice()[at as usize] {
            return Ok(());
        }
        let node = forwarded(&trail, flow.node(at));
        trail.go_past(node)?;
        self.left.set(at as usize, false);
        self.nodes.set(at as usize, node);
        self.go_on(alloc, flow, table, at, trail)
    }

    /// Lets the nodes wait to which a node is the only way. Behind a test both sides may be such; then what is known is copied for one.
    fn go_on(
        &mut self,
        alloc: Global,
        flow: &Flow,
        table: &[Way],
        at: u32,
        trail: Trail,
    ) -> Result<(), AllocError>
        requires kept { IsFlow flow.now }
        requires table { AreWays flow.now table.now }
        requires there { at < length flow.now.nodes }
        ensures goes_on { OnOk result ((node : FlowNode) → slice_get flow.now.nodes at ≡ Some node → AddsAll flow.now at trail (edges_of node) self.old.waiting self.new.waiting) }
        ensures left { self.new.left ≡ self.old.left }
        ensures nodes { self.new.nodes ≡ self.old.nodes }
    {
        match flow.node(at) {
            FlowNode::Op { next, .. } => self.go_to(flow, table, at, next, trail),
            FlowNode::Test { yes, no, .. } => {
                if !leads_on(flow, table, at, no) {
                    return self.go_to(flow, table, at, yes, trail);
                }
                if !leads_on(flow, table, at, yes) {
                    return self.go_to(flow, table, at, no, trail);
                }
                let copy = trail.copy(alloc)?;
                self.go_to(flow, table, at, yes, copy)?;
                self.go_to(flow, table, at, no, trail)
            }
            FlowNode::Stop => Ok(()),
            FlowNode::Trap { .. } => Ok(()),
        }
    }

    /// Lets a node wait, if another one is the only way to it and it is no end.
    fn go_to(
        &mut self,
        flow: &Flow,
        table: &[Way],
        from: u32,
        to: u32,
        trail: Trail,
    ) -> Result<(), AllocError>
        requires kept { IsFlow flow.now }
        requires table { AreWays flow.now table.now }
        requires there { to < length flow.now.nodes }
        ensures adds { OnOk result (Adds flow.now from trail to self.old.waiting self.new.waiting) }
        ensures left { self.new.left ≡ self.old.left }
        ensures nodes { self.new.nodes ≡ self.old.nodes }
    {
        if leads_on(flow, table, from, to) {
            self.waiting.push(Waiting { at: to, trail })?;
        }
        Ok(())
    }
}

/// Whether a node is the only way to another one, which is no end.
fn leads_on(flow: &Flow, table: &[Way], from: u32, to: u32) -> bool
    requires kept { IsFlow flow.now }
    requires table { AreWays flow.now table.now }
    requires there { to < length flow.now.nodes }
    ensures only { result ≡ true → IsOnlyWay flow.now from to }
    ensures ends { result ≡ false → IsOnlyWay flow.now from to → IsEnd flow.now to }
{
    if is_end(flow.node(to)) {
        return false;
    }
    follows(table[to as usize], from)
}

/// Whether a node begins a trail: there is no only way to it.
fn begins(way: Way) -> bool
    ensures { result ≡ begins way }
{
    match way {
        Way::Several => true,
        Way::Nothing | Way::Only(_) => false,
    }
}

/// Whether one edge of this node is the only way.
fn follows(way: Way, from: u32) -> bool
    ensures { result ≡ follows from way }
{
    match way {
        Way::Only(other) => other == from,
        Way::Nothing | Way::Several => false,
    }
}

/// Whether the run ends at a node.
fn is_end(node: FlowNode) -> bool
    ensures ends { result ≡ true → Ends node }
    ensures goes_on { result ≡ false → Ends node → ⊥ }
{
    match node {
        FlowNode::Stop | FlowNode::Trap { .. } => true,
        FlowNode::Op { .. } | FlowNode::Test { .. } => false,
    }
}

/// How many nodes are copies where a load was.
fn changes(flow: &Flow, nodes: &FlowNodeList) -> u32
    requires { length nodes.now ≡ length flow.now.nodes }
    ensures { AreMany (BecameCopy flow.now.nodes nodes.now) (length flow.now.nodes) result }
{
    let mut count = 0;
    for at in 0..flow.count() {
        if became_copy(flow, nodes, at) {
            count += 1;
        }
    }
    count
}

/// Whether a node is a copy where a load was.
fn became_copy(flow: &Flow, nodes: &FlowNodeList, at: u32) -> bool
    requires as_many { length nodes.now ≡ length flow.now.nodes }
    requires there { at < length flow.now.nodes }
    ensures copies { result ≡ true → BecameCopy flow.now.nodes nodes.now at }
    ensures left { result ≡ false → BecameCopy flow.now.nodes nodes.now at → ⊥ }
{
    is_load(flow.node(at)) && is_copy(nodes.as_slice()[at as usize])
}

fn is_load(node: FlowNode) -> bool
    ensures { result ≡ is_load node }
{
    match node {
        FlowNode::Op { item, .. } => match item {
            Item::Load { .. } => true,
            _ => false,
        },
        _ => false,
    }
}

fn is_copy(node: FlowNode) -> bool
    ensures { result ≡ is_copy node }
{
    match node {
        FlowNode::Op { item, .. } => match item {
            Item::Copy { .. } => true,
            _ => false,
        },
        _ => false,
    }
}
