//! Forwarding of loads.
ghost use Rattle.std.specs.Prelude.{◌≡◌, ◌<◌, ℕ, length, IfOk, OnOk, OnErr, MatchOption};
ghost use Rattle.pc_flow.specs.FlowGraph.{variables};
ghost use Rattle.pc_pass.specs.Pass.{Keeps};
ghost use Rattle.pc_scalar.specs.LoopTests.{KeepsLoopTests};
ghost use Rattle.pc_scalar.specs.Tally.{AreMany, IsWorkedOn};
ghost use Rattle.pc_forward.specs.Forwardable.{IsHolder, IsAtHand, ForwardsAll};
ghost use Rattle.pc_forward.specs.Forwarded.{IsLeast, StandsFor, ForwardsEach};
ghost use Rattle.pc_forward.specs.models.Walking.{IsKnownAs, NotKnown, IsForwardedNode};

use crate::access::element;
use crate::trail::Trail;
use crate::walking::plan_of;
use pc_flow::{Flow, FlowNode};
use pc_linear::LinForm;
use pc_scalar::install;
use pc_word::{Item, Operand};
use std::alloc::{AllocError, Global};

/// Forwards the loads of a graph. How many nodes were changed.
#[tactic(auto, using(crate::proofs::Forwardings::forwarding_laws))]
pub(crate) fn forward_flow(alloc: Global, flow: &mut Flow) -> Result<u32, AllocError>
    ensures keeps { OnOk result (Keeps flow.old flow.new) }
    ensures undone { OnErr result (flow.new ≡ flow.old) }
    ensures forwarded { OnOk result (ForwardsAll flow.new) }
    ensures each { OnOk result (ForwardsEach flow.old flow.new) }
    ensures loop_tests { OnOk result (KeepsLoopTests flow.old flow.new) }
    ensures counted { IfOk result (λ nodes. AreMany (IsWorkedOn flow.old flow.new) (length flow.old.nodes) nodes) }
{
    let plan = plan_of(alloc, flow)?;
    install(flow, &plan);
    Ok(plan.changed)
}

/// A node, where the trail to it tells this: a load whose value is known and at hand is a copy.
#[tactic(auto, using(crate::proofs::Holders::forwarding))]
pub(crate) fn forwarded(trail: &Trail, node: FlowNode) -> FlowNode
    requires { length trail.now.forms ≡ variables }
    ensures { IsForwardedNode trail.now node result }
{
    match node {
        FlowNode::Op { item, next } => match item {
            Item::Load { dest, array, index } => match known_operand(trail, array, index) {
                Some(from) => FlowNode::Op {
                    item: Item::Copy { dest, from },
                    next,
                },
                None => node,
            },
            Item::Bin { .. } | Item::Copy { .. } | Item::Store { .. } => node,
            Item::Print { .. } | Item::Read { .. } | Item::More { .. } => node,
        },
        FlowNode::Test { .. } | FlowNode::Stop | FlowNode::Trap { .. } => node,
    }
}

/// What stands for the value of an element, where the trail tells it.
fn known_operand(trail: &Trail, array: u8, index: Operand) -> Option<Operand>
    requires { length trail.now.forms ≡ variables }
    ensures { MatchOption result (NotKnown trail.now array index) (λ from. IsKnownAs trail.now array index from) }
{
    let index = trail.form(index);
    match element(trail.accesses.as_slice(), array, &index) {
        Some(value) => at_hand(trail.forms.as_slice(), &value),
        None => None,
    }
}

/// The constant that a value is, or the first variable that has it.
fn at_hand(forms: &[LinForm], value: &LinForm) -> Option<Operand>
    requires { length forms.now ≡ variables }
    ensures { MatchOption result (IsAtHand forms.now value.now → ⊥) (λ from. StandsFor forms.now value.now from) }
{
    match value.term(0) {
        None => Some(Operand::Lit(value.offset())),
        Some(_) => match holder(forms, value) {
            Some(name) => Some(Operand::Name(name)),
            None => None,
        },
    }
}

/// The first variable that has a value.
fn holder(forms: &[LinForm], value: &LinForm) -> Option<u32>
    requires { length forms.now ≡ variables }
    ensures { MatchOption result ((x : ℕ) → IsHolder forms.now value.now x → ⊥) (λ x. IsLeast forms.now value.now x) }
{
    for name in 0..forms.len() {
        if forms[name].always_equal(value) {
            return Some(name as u32);
        }
    }
    None
}
