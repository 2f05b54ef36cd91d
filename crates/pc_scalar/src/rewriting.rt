//! Nodes are rewritten by what is known there, along chains of items.
ghost use Rattle.std.specs.Prelude.{◌≡◌, ◌<◌, ℕ, true, false, Some, None, length, replicate, slice_get, slice_set, IfOk, MatchOption};
ghost use Rattle.pc_flow.specs.declared.node.FlowNode.{FlowNode};
ghost use Rattle.pc_flow.specs.FlowGraph.{IsFlow, variables};
ghost use Rattle.pc_scalar.specs.Chain.{FollowsAlone};
ghost use Rattle.pc_scalar.specs.Tally.{AreMany};
ghost use Rattle.pc_scalar.specs.models.Before.{AreBefore};
ghost use Rattle.pc_scalar.specs.models.Counted.{Differ, TellByOperands};
ghost use Rattle.pc_scalar.specs.models.Known.{KnownAt, rewritten};
ghost use Rattle.pc_scalar.specs.models.Rewriting.{follows, begins, ChainFrom, Written, AreWritten, Rewrites, IsRewriting};

use crate::before::{Predecessor, predecessors};
use crate::difference::differs;
use crate::known::learn;
use crate::plan::Plan;
use crate::reach::reached;
use crate::rule::{Rule, rewritten};
use pc_flow::{Flow, FlowNode, FlowNodeList};
use pc_word::{Item, MOST_SCALARS, MOST_TEMPORARIES};
use std::alloc::{AllocError, Global};

/// How many variables a graph may name.
const VARIABLES: usize = MOST_SCALARS as usize + MOST_TEMPORARIES as usize;

/// The nodes of a graph, rewritten by what is known there.
pub(crate) fn plan_of(alloc: Global, flow: &Flow, rule: Rule) -> Result<Plan, AllocError>
    ensures { IfOk result (λ plan. IsRewriting flow.now rule plan) }
{
    let flags = reached(alloc, flow)?;
    let table = predecessors(alloc, flow, flags.as_slice())?;
    let mut nodes = nodes_of(alloc, flow)?;
    let mut known = vec![in alloc; None; VARIABLES]?;
    rewrite_all(
        flow,
        table.as_slice(),
        rule,
        known.as_mut_slice(),
        &mut nodes,
    );
    let changed = changes(flow, &nodes);
    Ok(Plan {
        nodes,
        entry: flow.entry(),
        changed,
    })
}

/// The nodes of a graph, copied.
pub fn nodes_of(alloc: Global, flow: &Flow) -> Result<FlowNodeList, AllocError>
    ensures { IfOk result (λ nodes. nodes ≡ flow.now.nodes) }
{
    let mut nodes = FlowNodeList::new(alloc);
    for at in 0..flow.count() {
        nodes.push(flow.node(at))?;
    }
    Ok(nodes)
}

/// How many nodes differ from those of a graph.
fn changes(flow: &Flow, nodes: &FlowNodeList) -> u32
    requires { TellByOperands flow.now.nodes nodes.now }
    ensures { AreMany (Differ flow.now.nodes nodes.now) (length flow.now.nodes) result }
{
    let mut count = 0;
    for at in 0..flow.count() {
        if is_changed(flow, nodes, at) {
            count += 1;
        }
    }
    count
}

/// Whether the node at a place differs from that of a graph.
fn is_changed(flow: &Flow, nodes: &FlowNodeList, at: u32) -> bool
    requires tell { TellByOperands flow.now.nodes nodes.now }
    requires there { at < length flow.now.nodes }
    ensures counted { result ≡ true → Differ flow.now.nodes nodes.now at }
    ensures left { result ≡ false → Differ flow.now.nodes nodes.now at → ⊥ }
{
    differs(flow.node(at), nodes.as_slice()[at as usize])
}

/// Rewrites the nodes of each chain.
fn rewrite_all(
    flow: &Flow,
    table: &[Predecessor],
    rule: Rule,
    known: &mut [Option<Item>],
    nodes: &mut FlowNodeList,
)
    requires table { AreBefore flow.now table.now }
    requires known { length known.old ≡ variables }
    requires nodes { nodes.old ≡ flow.now.nodes }
    ensures kept { IsFlow flow.now }
    ensures rewrites { Rewrites flow.now rule nodes.new }
    ensures written { AreWritten flow.now table.now rule nodes.new }
{
    for head in 0..flow.count() {
        if begins(table[head as usize]) {
            walk(flow, table, rule, known, nodes, head);
        }
    }
}

/// Whether a node begins a chain: no item alone leads to it.
fn begins(before: Predecessor) -> bool
    ensures { result ≡ begins before }
{
    match before {
        Predecessor::Several => true,
        Predecessor::Nothing | Predecessor::Only(_) => false,
    }
}

/// Rewrites the nodes of the chain that begins at a node.
fn walk(
    flow: &Flow,
    table: &[Predecessor],
    rule: Rule,
    known: &mut [Option<Item>],
    nodes: &mut FlowNodeList,
    head: u32,
)
    requires kept { IsFlow flow.now }
    requires table { AreBefore flow.now table.now }
    requires known { length known.old ≡ variables }
    requires rewrites { Rewrites flow.now rule nodes.old }
    requires there { head < length flow.now.nodes }
    requires begins { (from : ℕ) → FollowsAlone flow.now from head → ⊥ }
    ensures rewrites { Rewrites flow.now rule nodes.new }
    ensures still { (at : ℕ) → Written flow.now rule nodes.old at → Written flow.now rule nodes.new at }
    ensures chain { (at : ℕ) → ChainFrom flow.now head at → Written flow.now rule nodes.new at }
{
    clear(known);
    let mut at = head;
    while let Some(next) = visit(flow, table, rule, known, nodes, at) {
        at = next;
    }
}

/// Lets nothing be known.
fn clear(known: &mut [Option<Item>])
    ensures { known.new ≡ replicate (length known.old) None }
{
    for at in 0..known.len() {
        known[at] = None;
    }
}

/// Rewrites a node. The node that follows it alone, if one does, with what is known there.
fn visit(
    flow: &Flow,
    table: &[Predecessor],
    rule: Rule,
    known: &mut [Option<Item>],
    nodes: &mut FlowNodeList,
    at: u32,
) -> Option<u32>
    requires kept { IsFlow flow.now }
    requires table { AreBefore flow.now table.now }
    requires known { KnownAt flow.now rule at known.old }
    requires long { length known.old ≡ variables }
    requires nodes { length nodes.old ≡ length flow.now.nodes }
    requires there { at < length flow.now.nodes }
    ensures node { (node : FlowNode) → slice_get flow.now.nodes at ≡ Some node → nodes.new ≡ slice_set nodes.old at (rewritten rule known.old node) }
    ensures next { MatchOption result ((next : ℕ) → FollowsAlone flow.now at next → ⊥) (λ next. FollowsAlone flow.now at next × KnownAt flow.now rule next known.new) }
{
    let node = rewritten(rule, known, flow.node(at));
    nodes.set(at as usize, node);
    match node {
        FlowNode::Op { item, next } => {
            learn(known, item);
            if follows(table[next as usize], at) {
                return Some(next);
            }
            None
        }
        FlowNode::Test { .. } | FlowNode::Stop | FlowNode::Trap { .. } => None,
    }
}

/// Whether the item of one node alone leads to a node.
fn follows(before: Predecessor, from: u32) -> bool
    ensures { result ≡ follows from before }
{
    match before {
        Predecessor::Only(other) => other == from,
        Predecessor::Nothing | Predecessor::Several => false,
    }
}
