//! The analysis of live variables.
ghost use Rattle.std.specs.Prelude.{IfOk, true};
ghost use Rattle.pc_live.specs.Liveness.{IsLivenessOf};

use crate::LiveError;
use crate::liveness::Liveness;
use crate::solver::{BackwardAnalysis, solve};
use crate::variable_set::VariableSet;
use pc_flow::Flow;
use pc_word::Item;
use std::alloc::Global;

/// Every read makes a variable live.
struct EveryRead;

impl BackwardAnalysis for EveryRead {
    ghost counts = { λ after item. true };

    fn reads_count(_item: &Item, _after: VariableSet) -> bool {
        true
    }
}

/// The variables that are live at each node of a graph.
///
/// It takes as many rounds over the nodes as `solve` does.
#[tactic(auto, using(crate::proofs::Lives::solution_exact))]
pub fn live(alloc: Global, flow: &Flow) -> Result<Liveness, LiveError>
    ensures { IfOk result (λ liveness. IsLivenessOf flow.now liveness) }
{
    let sets = solve::<EveryRead>(alloc, flow)?;
    Ok(Liveness::new(sets))
}
