//! Backward analyses: rounds over the nodes until no set grows.
ghost use Rattle.std.specs.Prelude.{◌≡◌, ◌<◌, ℕ, Bool, true, false, IfOk, IfSome, length};
ghost use Rattle.pc_word.specs.declared.item.Item.{Item};
ghost use Rattle.pc_word.specs.Items.{dest_of};
ghost use Rattle.pc_flow.specs.FlowGraph.{variables, IsFlow};
ghost use Rattle.pc_live.specs.declared.variable_set.VariableSet.{VariableSet};
ghost use Rattle.pc_live.specs.Liveness.{member};
ghost use Rattle.pc_live.specs.Backward.{needs_at, IsClosedAt, IsClosed, IsSolution};
ghost use Rattle.pc_live.specs.models.Rounds.{AreGrown, total};

use crate::uses::{passed_by, read_by};
use crate::variable_set::VariableSet;
use pc_flow::{Flow, FlowNode};
use pc_word::Item;
use std::alloc::{AllocError, Global};

/// A backward analysis, which is told by the reads that count in it.
///
/// A variable is in a node's set where a read of the node counts, or where the node does not write it
/// and it is in the set of a node to which an edge leads. What is tested always counts.
pub trait BackwardAnalysis {
    /// Whether what an item reads counts, by the set of the node after it.
    ghost counts: { VariableSet → Item → Bool };

    /// Whether what an item reads counts, by the set of the node after it.
    fn reads_count(item: &Item, after: VariableSet) -> bool
        requires { IfSome (dest_of item.now) (λ name. name < variables) }
        ensures { result ≡ counts after item.now };
}

/// The least sets of a graph's nodes that hold what the analysis asks for, one a node.
///
/// Where a node has a greater number than the nodes that lead to it, as in source order, but for the
/// edges back to the tests of loops, it takes about as many rounds over the nodes as loops are
/// nested, and two more.
pub fn solve<A: BackwardAnalysis>(
    alloc: Global,
    flow: &Flow,
) -> Result<Vec<VariableSet>, AllocError>
    ensures kept { IsFlow flow.now }
    ensures solution { IfOk result (λ sets. IsSolution A.counts flow.now sets.items) }
{
    let count = flow.count();
    let mut sets = vec![in alloc; VariableSet::empty(); count as usize]?;
    settle::<A>(flow, sets.as_mut_slice());
    Ok(sets)
}

/// Goes over the nodes until no set grows.
fn settle<A: BackwardAnalysis>(flow: &Flow, sets: &mut [VariableSet])
    requires kept { IsFlow flow.now }
    requires as_many { length sets.old ≡ length flow.now.nodes }
    requires grown { AreGrown A.counts flow.now sets.old }
    ensures { IsSolution A.counts flow.now sets.new }
{
    while round::<A>(flow, sets) {}
}

/// Goes over all nodes once, the last first. Whether a set grew.
fn round<A: BackwardAnalysis>(flow: &Flow, sets: &mut [VariableSet]) -> bool
    requires kept { IsFlow flow.now }
    requires as_many { length sets.old ≡ length flow.now.nodes }
    requires grown { AreGrown A.counts flow.now sets.old }
    ensures grown { AreGrown A.counts flow.now sets.new }
    ensures rose { result ≡ true → total sets.old < total sets.new }
    ensures closed { result ≡ false → IsClosed A.counts flow.now sets.new }
{
    let mut grew = false;
    let mut at = flow.count();
    while at > 0 {
        at -= 1;
        if update::<A>(flow, sets, at) {
            grew = true;
        }
    }
    grew
}

/// Puts into a node's set what it needs, as far as the other sets tell. Whether it grew.
fn update<A: BackwardAnalysis>(flow: &Flow, sets: &mut [VariableSet], at: u32) -> bool
    requires kept { IsFlow flow.now }
    requires as_many { length sets.old ≡ length flow.now.nodes }
    requires there { at < length flow.now.nodes }
    requires grown { AreGrown A.counts flow.now sets.old }
    ensures grown { AreGrown A.counts flow.now sets.new }
    ensures rose { result ≡ true → total sets.old < total sets.new }
    ensures same { result ≡ false → sets.new ≡ sets.old }
    ensures closed { result ≡ false → IsClosedAt A.counts flow.now sets.old at }
{
    let needed = needed_before::<A>(flow, sets, at);
    sets[at as usize].add(needed)
}

/// The variables that a node needs, as far as the sets of the nodes after it tell.
fn needed_before<A: BackwardAnalysis>(flow: &Flow, sets: &[VariableSet], at: u32) -> VariableSet
    requires kept { IsFlow flow.now }
    requires as_many { length sets.now ≡ length flow.now.nodes }
    requires there { at < length flow.now.nodes }
    ensures { (x : ℕ) → x < variables → member result x ≡ needs_at A.counts flow.now.nodes sets.now at x }
{
    match flow.node(at) {
        FlowNode::Op { item, next } => {
            let after = sets[next as usize];
            let passed = passed_by(&item, after);
            if !A::reads_count(&item, after) {
                return passed;
            }
            read_by(&item).union(passed)
        }
        FlowNode::Test { on, yes, no, .. } => {
            let on_yes = sets[yes as usize];
            let on_no = sets[no as usize];
            on_yes.union(on_no).with_operand(on)
        }
        FlowNode::Stop | FlowNode::Trap { .. } => VariableSet::empty(),
    }
}
