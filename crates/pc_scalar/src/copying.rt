//! Propagation of copies.
ghost use Rattle.std.specs.Prelude.{◌≡◌, length, IfOk, OnOk, OnErr};
ghost use Rattle.pc_pass.specs.Pass.{Keeps};
ghost use Rattle.pc_scalar.specs.Copied.{NamesNoCopy};
ghost use Rattle.pc_scalar.specs.LoopTests.{KeepsLoopTests};
ghost use Rattle.pc_scalar.specs.Tally.{AreMany, IsWorkedOn};

use crate::plan::install;
use crate::rewriting::plan_of;
use crate::rule::Rule;
use pc_flow::Flow;
use std::alloc::{AllocError, Global};

/// Propagates the copies of a graph. How many nodes were changed.
#[tactic(auto, using(crate::proofs::CopyLaws::copy_laws))]
pub(crate) fn copy_flow(alloc: Global, flow: &mut Flow) -> Result<u32, AllocError>
    ensures keeps { OnOk result (Keeps flow.old flow.new) }
    ensures undone { OnErr result (flow.new ≡ flow.old) }
    ensures copied { OnOk result (NamesNoCopy flow.new) }
    ensures loop_tests { OnOk result (KeepsLoopTests flow.old flow.new) }
    ensures counted { IfOk result (λ nodes. AreMany (IsWorkedOn flow.old flow.new) (length flow.old.nodes) nodes) }
{
    let plan = plan_of(alloc, flow, Rule::CopiedNames)?;
    install(flow, &plan);
    Ok(plan.changed)
}
