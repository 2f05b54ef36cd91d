//! Which variables are needed at each node, where what is read by items that are removed is not: the
//! analysis of faint variables.
ghost use Rattle.std.specs.Prelude.{◌≡◌, ◌<◌, IfOk, IfSome};
ghost use Rattle.pc_flow.specs.FlowGraph.{variables};
ghost use Rattle.pc_word.specs.Items.{dest_of};
ghost use Rattle.pc_scalar.specs.models.Needed.{kept_reads, AreNeeded, is_needless};

use pc_flow::Flow;
use pc_live::{BackwardAnalysis, VariableSet, solve};
use pc_word::Item;
use std::alloc::{AllocError, Global};

/// What an item reads counts unless the item is needless.
struct KeptReads;

impl BackwardAnalysis for KeptReads {
    ghost counts = { kept_reads };

    fn reads_count(item: &Item, after: VariableSet) -> bool {
        !is_needless(item, after)
    }
}

/// The variables that are needed at each node of a graph.
///
/// It takes as many rounds over the nodes as `solve` does.
#[tactic(auto, using(crate::proofs::Needs::are_needed))]
pub(crate) fn needed(alloc: Global, flow: &Flow) -> Result<Vec<VariableSet>, AllocError>
    ensures { IfOk result (λ sets. AreNeeded flow.now sets.items) }
{
    let sets = solve::<KeptReads>(alloc, flow)?;
    Ok(sets)
}

/// Whether an item does nothing but write a variable that is not in the set of the node after it.
pub(crate) fn is_needless(item: &Item, after: VariableSet) -> bool
    requires { IfSome (dest_of item.now) (λ name. name < variables) }
    ensures { result ≡ is_needless after item.now }
{
    match *item {
        Item::Bin { dest, .. }
        | Item::Copy { dest, .. }
        | Item::Load { dest, .. }
        | Item::More { dest } => !after.contains(dest),
        Item::Store { .. } | Item::Print { .. } | Item::Read { .. } => false,
    }
}
