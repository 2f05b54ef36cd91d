//! The parts of a row in words.
ghost use Rattle.std.specs.Prelude.{◌≡◌, Some};
ghost use Rattle.pc_view.specs.Words.{operator_words, operand_words, item_words, leaf_words};
ghost use Rattle.pc_view.specs.Graph.{field_operator};
ghost use Rattle.pc_view.specs.models.Media.{operator_in};

use pc_machine::Leaf;
use pc_report::trap_words;
use pc_word::{Item, OpCode, Operand};
use std::fmt;

/// What words are written for.
#[derive(Clone, Copy, Debug, PartialEq, Eq)]
pub(crate) enum Medium {
    /// A line of a listing.
    Line,
    /// A field of a record node, where `<`, `>` and `|` stand after a backslash.
    Field,
}

/// An operand that is to be written.
#[derive(Clone, Copy)]
pub(crate) struct OperandWords {
    pub operand: Operand,
}

/// An item that is to be written.
#[derive(Clone, Copy)]
pub(crate) struct ItemWords {
    pub medium: Medium,
    pub item: Item,
}

/// A leaf that is to be written.
#[derive(Clone, Copy)]
pub(crate) struct LeafWords {
    pub leaf: Leaf,
}

/// An operator as C writes it; C has no `below`.
pub fn operator_words(op: OpCode) -> &'static str
    ensures { result.now ≡ operator_words op }
{
    match op {
        OpCode::Add => "+",
        OpCode::Sub => "-",
        OpCode::Mul => "*",
        OpCode::Div => "/",
        OpCode::Rem => "%",
        OpCode::Shl => "<<",
        OpCode::Shr => ">>",
        OpCode::And => "&",
        OpCode::Or => "|",
        OpCode::Xor => "^",
        OpCode::Less => "<",
        OpCode::LessEq => "<=",
        OpCode::Equal => "==",
        OpCode::Unequal => "!=",
        OpCode::Below => "below",
    }
}

/// An operator in a field of a record node.
fn field_operator(op: OpCode) -> &'static str
    ensures { result.now ≡ field_operator op }
{
    match op {
        OpCode::Shl => "\\<\\<",
        OpCode::Shr => "\\>\\>",
        OpCode::Or => "\\|",
        OpCode::Less => "\\<",
        OpCode::LessEq => "\\<=",
        _ => operator_words(op),
    }
}

/// An operator, as the medium wants it.
fn operator_in(medium: Medium, op: OpCode) -> &'static str
    ensures { result.now ≡ operator_in medium op }
{
    match medium {
        Medium::Line => operator_words(op),
        Medium::Field => field_operator(op),
    }
}

impl fmt::Display for OperandWords {
    ghost output = { λ words. Some (operand_words words.operand) };

    fn fmt<W: fmt::Write>(&self, f: &mut fmt::Formatter<W>) -> fmt::Result {
        match self.operand {
            Operand::Name(register) => write!(f, "r{register}"),
            Operand::Lit(value) => write!(f, "{value}"),
        }
    }
}

/// An operand that is to be written.
fn shown(operand: Operand) -> OperandWords
    ensures { result ≡ record { operand = operand } }
{
    OperandWords { operand }
}

impl fmt::Display for ItemWords {
    ghost output = { λ words. Some (item_words (operator_in words.medium) words.item) };

    fn fmt<W: fmt::Write>(&self, f: &mut fmt::Formatter<W>) -> fmt::Result {
        match self.item {
            Item::Bin {
                op,
                dest,
                left,
                right,
            } => {
                let op = operator_in(self.medium, op);
                let (left, right) = (shown(left), shown(right));
                write!(f, "r{dest} = {left} {op} {right}")
            }
            Item::Copy { dest, from } => {
                let from = shown(from);
                write!(f, "r{dest} = {from}")
            }
            Item::Load { dest, array, index } => {
                let index = shown(index);
                write!(f, "r{dest} = a{array}[{index}]")
            }
            Item::Store {
                array,
                index,
                value,
            } => {
                let (index, value) = (shown(index), shown(value));
                write!(f, "a{array}[{index}] = {value}")
            }
            Item::Print { value } => {
                let value = shown(value);
                write!(f, "print({value})")
            }
            Item::Read { dest } => write!(f, "r{dest} = read()"),
            Item::More { dest } => write!(f, "r{dest} = more()"),
        }
    }
}

impl fmt::Display for LeafWords {
    ghost output = { λ words. Some (leaf_words words.leaf) };

    fn fmt<W: fmt::Write>(&self, f: &mut fmt::Formatter<W>) -> fmt::Result {
        match self.leaf {
            Leaf::Goto { row } => write!(f, "goto row {row}"),
            Leaf::Stop => write!(f, "stop"),
            Leaf::Trap { kind, line } => {
                let kind = trap_words(kind);
                write!(f, "trap: {kind} at line {line}")
            }
        }
    }
}
