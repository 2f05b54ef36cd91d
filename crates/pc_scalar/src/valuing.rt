//! Reuse of values.
ghost use Rattle.std.specs.Prelude.{◌≡◌, length, IfOk, OnOk, OnErr};
ghost use Rattle.pc_pass.specs.Pass.{Keeps};
ghost use Rattle.pc_scalar.specs.Valued.{ComputesNoneAgain};
ghost use Rattle.pc_scalar.specs.LoopTests.{KeepsLoopTests};
ghost use Rattle.pc_scalar.specs.Tally.{AreMany, IsWorkedOn};

use crate::plan::install;
use crate::rewriting::plan_of;
use crate::rule::Rule;
use pc_flow::Flow;
use std::alloc::{AllocError, Global};

/// Reuses the values of a graph. How many nodes were changed.
#[tactic(auto, using(crate::proofs::ValueLaws::value_laws))]
pub(crate) fn value_flow(alloc: Global, flow: &mut Flow) -> Result<u32, AllocError>
    ensures keeps { OnOk result (Keeps flow.old flow.new) }
    ensures undone { OnErr result (flow.new ≡ flow.old) }
    ensures valued { OnOk result (ComputesNoneAgain flow.new) }
    ensures loop_tests { OnOk result (KeepsLoopTests flow.old flow.new) }
    ensures counted { IfOk result (λ nodes. AreMany (IsWorkedOn flow.old flow.new) (length flow.old.nodes) nodes) }
{
    let plan = plan_of(alloc, flow, Rule::KnownValues)?;
    install(flow, &plan);
    Ok(plan.changed)
}
