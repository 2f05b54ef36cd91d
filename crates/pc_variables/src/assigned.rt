//! The names that a row assigns scalars to.
ghost use Rattle.std.specs.Prelude.{◌≡◌, OnOk, slice_get};
ghost use Rattle.pc_word.specs.StoredRow.{row_in};
ghost use Rattle.pc_told.specs.Tellings.{telling_in};
ghost use Rattle.pc_variables.specs.Holdings.{assigned_by, copied_at, copied_by, given_to, with_assigned};

use crate::HoldingList;
use crate::holding::{if_scalar, push_name};
use pc_automaton::AutomatonLeaf;
use pc_flow::{Flow, FlowNode};
use pc_told::ToldRow;
use pc_word::{Item, RowTree};
use std::alloc::AllocError;

/// The scalar that a node of the flow graph assigns, if it is there and assigns one.
fn assigned_by(flow: &Flow, origin: u32) -> Option<u32>
    ensures { result ≡ assigned_by flow.now origin }
{
    if origin >= flow.count() {
        return None;
    }
    match flow.node(origin) {
        FlowNode::Op { item, next } => given_to(flow, next, item.dest()?),
        FlowNode::Test { .. } | FlowNode::Stop | FlowNode::Trap { .. } => None,
    }
}

/// The scalar that gets what is written to a variable: the variable itself, if it is one, or that to which the next node copies it.
fn given_to(flow: &Flow, next: u32, variable: u32) -> Option<u32>
    ensures { result ≡ given_to flow.now next variable }
{
    match if_scalar(variable) {
        Some(scalar) => Some(scalar),
        None => copied_at(flow, next, variable),
    }
}

/// The scalar to which a node copies a variable, if it is there and does so.
fn copied_at(flow: &Flow, node: u32, variable: u32) -> Option<u32>
    ensures { result ≡ copied_at variable (slice_get flow.now.nodes node) }
{
    if node >= flow.count() {
        return None;
    }
    match flow.node(node) {
        FlowNode::Op { item, .. } => copied_by(variable, item),
        FlowNode::Test { .. } | FlowNode::Stop | FlowNode::Trap { .. } => None,
    }
}

/// The scalar to which an item copies a variable, if it does so.
fn copied_by(variable: u32, item: Item) -> Option<u32>
    ensures { result ≡ copied_by variable item }
{
    match item {
        Item::Copy { dest, from } => {
            if from.is_name(variable) {
                return if_scalar(dest);
            }
            None
        }
        Item::Bin { .. } | Item::Load { .. } | Item::Store { .. } => None,
        Item::Print { .. } | Item::Read { .. } | Item::More { .. } => None,
    }
}

/// Appends the names that a row writes whose items come from nodes that assign scalars. What is told of the row has its shape.
pub(crate) fn push_assigned(
    holdings: &mut HoldingList,
    flow: &Flow,
    row: &RowTree<AutomatonLeaf>,
    told: &ToldRow,
) -> Result<(), AllocError>
    ensures { OnOk result (holdings.new ≡ with_assigned flow.now (row_in (λ leaf. leaf) row.now) (telling_in told.now) holdings.old) }
{
    match (row, told) {
        (
            RowTree::Step { item, next },
            ToldRow::Step {
                origin,
                next: told_next,
                ..
            },
        ) => {
            push_name(holdings, item.dest(), assigned_by(flow, *origin))?;
            push_assigned(holdings, flow, next, told_next)
        }
        (
            RowTree::Test { yes, no, .. },
            ToldRow::Test {
                yes: one,
                no: other,
                ..
            },
        ) => {
            push_assigned(holdings, flow, yes, one)?;
            push_assigned(holdings, flow, no, other)
        }
        _ => Ok(()),
    }
}
