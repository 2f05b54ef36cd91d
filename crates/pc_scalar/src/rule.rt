//! How a node is rewritten by what is known there.
ghost use Rattle.std.specs.Prelude.{◌≡◌};
ghost use Rattle.pc_scalar.specs.models.Known.{copied, same_operand, computes, holder, valued_item, rewritten};
ghost use Rattle.pc_word.specs.Items.{op_number};

use pc_flow::FlowNode;
use pc_word::{Item, OpCode, Operand};

/// What a node is rewritten by.
#[derive(Clone, Copy, Debug, PartialEq, Eq)]
pub(crate) enum Rule {
    /// Names of copies become what was copied.
    CopiedNames,
    /// Items that compute what a variable stands for become copies of it.
    KnownValues,
}

/// A node, rewritten by what is known there.
pub(crate) fn rewritten(rule: Rule, known: &[Option<Item>], node: FlowNode) -> FlowNode
    ensures { result ≡ rewritten rule known.now node }
{
    match rule {
        Rule::CopiedNames => copied_node(known, node),
        Rule::KnownValues => valued_node(known, node),
    }
}

fn copied_node(known: &[Option<Item>], node: FlowNode) -> FlowNode
    ensures { result ≡ rewritten Rule.CopiedNames known.now node }
{
    match node {
        FlowNode::Op { item, next } => FlowNode::Op {
            item: item.map_operands(|operand| copied(known, operand)),
            next,
        },
        FlowNode::Test { on, yes, no, turn } => FlowNode::Test {
            on: copied(known, on),
            yes,
            no,
            turn,
        },
        FlowNode::Stop | FlowNode::Trap { .. } => node,
    }
}

/// What a name that is a copy was copied from, and each other operand itself.
fn copied(known: &[Option<Item>], operand: Operand) -> Operand
    ensures { result ≡ copied known.now operand }
{
    match operand {
        Operand::Name(name) => match known.get(name as usize) {
            Some(Some(Item::Copy { from, .. })) => *from,
            _ => operand,
        },
        Operand::Lit(_) => operand,
    }
}

fn valued_node(known: &[Option<Item>], node: FlowNode) -> FlowNode
    ensures { result ≡ rewritten Rule.KnownValues known.now node }
{
    match node {
        FlowNode::Op { item, next } => FlowNode::Op {
            item: valued_item(known, item),
            next,
        },
        FlowNode::Test { .. } | FlowNode::Stop | FlowNode::Trap { .. } => node,
    }
}

/// A copy of the variable that stands for what an item computes, where there is one.
fn valued_item(known: &[Option<Item>], item: Item) -> Item
    ensures { result ≡ valued_item known.now item }
{
    match item {
        Item::Bin {
            op,
            dest,
            left,
            right,
        } => match holder(op, left, right, known) {
            Some(name) => Item::Copy {
                dest,
                from: Operand::Name(name),
            },
            None => item,
        },
        _ => item,
    }
}

/// The first variable that stands for what an operator gives of two operands.
fn holder(op: OpCode, left: Operand, right: Operand, known: &[Option<Item>]) -> Option<u32>
    ensures { result ≡ holder op left right known.now }
{
    for fact in known {
        if let Some(item) = fact {
            if computes(op, left, right, item) {
                return item.dest();
            }
        }
    }
    None
}

/// Whether an item computes what an operator gives of two operands.
fn computes(op: OpCode, left: Operand, right: Operand, item: &Item) -> bool
    ensures { result ≡ computes op left right item.now }
{
    match *item {
        Item::Bin {
            op: other,
            left: first,
            right: second,
            ..
        } => {
            if op.number() != other.number() {
                return false;
            }
            if !same_operand(left, first) {
                return false;
            }
            same_operand(right, second)
        }
        _ => false,
    }
}

/// Whether two operands are the same.
pub(crate) fn same_operand(one: Operand, other: Operand) -> bool
    ensures { result ≡ same_operand one other }
{
    match (one, other) {
        (Operand::Name(one), Operand::Name(other)) => one == other,
        (Operand::Lit(one), Operand::Lit(other)) => one == other,
        _ => false,
    }
}
