//! Whether a node was rewritten, which tells by its operands.
ghost use Rattle.std.specs.Prelude.{◌≡◌};
ghost use Rattle.pc_scalar.specs.models.Known.{same_operand};
ghost use Rattle.pc_scalar.specs.models.Counted.{first_operand, second_operand, same_if_any, same_operands, differs_from};

use crate::rule::same_operand;
use pc_flow::FlowNode;
use pc_word::{Item, Operand};

/// Whether the operands of a node differ from those of another one of its kind.
pub(crate) fn differs(node: FlowNode, other: FlowNode) -> bool
    ensures { result ≡ differs_from node other }
{
    match node {
        FlowNode::Op { item, .. } => match other {
            FlowNode::Op { item: made, .. } => !same_operands(&item, &made),
            _ => false,
        },
        FlowNode::Test { on, .. } => match other {
            FlowNode::Test { on: made, .. } => !same_operand(on, made),
            _ => false,
        },
        FlowNode::Stop | FlowNode::Trap { .. } => false,
    }
}

/// Whether two items have the same operands.
fn same_operands(one: &Item, other: &Item) -> bool
    ensures { result ≡ same_operands one.now other.now }
{
    if !same_if_any(first_operand(one), first_operand(other)) {
        return false;
    }
    same_if_any(second_operand(one), second_operand(other))
}

/// Whether two operands are there and the same, or none is.
fn same_if_any(one: Option<Operand>, other: Option<Operand>) -> bool
    ensures { result ≡ same_if_any one other }
{
    match (one, other) {
        (Some(one), Some(other)) => same_operand(one, other),
        (None, None) => true,
        _ => false,
    }
}

/// The first operand of an item.
fn first_operand(item: &Item) -> Option<Operand>
    ensures { result ≡ first_operand item.now }
{
    match *item {
        Item::Bin { left, .. } => Some(left),
        Item::Copy { from, .. } => Some(from),
        Item::Load { index, .. } | Item::Store { index, .. } => Some(index),
        Item::Print { value } => Some(value),
        Item::Read { .. } | Item::More { .. } => None,
    }
}

/// The second operand of an item.
fn second_operand(item: &Item) -> Option<Operand>
    ensures { result ≡ second_operand item.now }
{
    match *item {
        Item::Bin { right, .. } => Some(right),
        Item::Store { value, .. } => Some(value),
        Item::Copy { .. }
        | Item::Load { .. }
        | Item::Print { .. }
        | Item::Read { .. }
        | Item::More { .. } => None,
    }
}
