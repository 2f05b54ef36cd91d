//! Whether operands are the same, and items but for the names that they write.
ghost use Rattle.std.specs.Prelude.{◌≡◌, ◌↔◌, pos, true};
ghost use Rattle.pc_word.specs.declared.item.Operand.TheVariants as Operand;
ghost use Rattle.pc_word.specs.Naming.{AreAlike};
ghost use Rattle.pc_word.specs.models.Signature.{signature_of, without_operator};

use crate::item::{Item, OpCode, Operand};

/// What an item is but for the name that it writes; of what a kind has not the same stands in each.
#[derive(Clone, Copy, Debug)]
pub(crate) struct Signature {
    kind: u8,
    op: OpCode,
    array: u8,
    one: Operand,
    other: Operand,
}

/// The signature with these parts and no operator.
fn without_operator(kind: u8, array: u8, one: Operand, other: Operand) -> Signature
    ensures { result ≡ without_operator kind array one other }
{
    Signature {
        kind,
        op: OpCode::Add,
        array,
        one,
        other,
    }
}

/// What an item is but for the name that it writes.
fn signature_of(item: Item) -> Signature
    ensures { result ≡ signature_of item }
{
    let none = Operand::Lit(0);
    match item {
        Item::Bin {
            op,
            left,
            right,
            ..
        } => Signature {
            kind: 0,
            op,
            array: 0,
            one: left,
            other: right,
        },
        Item::Copy { from, .. } => without_operator(1, 0, from, none),
        Item::Load { array, index, .. } => without_operator(2, array, index, none),
        Item::Store {
            array,
            index,
            value,
        } => without_operator(3, array, index, value),
        Item::Print { value } => without_operator(4, 0, value, none),
        Item::Read { .. } => without_operator(5, 0, none, none),
        Item::More { .. } => without_operator(6, 0, none, none),
    }
}

/// Whether an operand is this name.
#[tactic(auto, using(crate::proofs::Signatures::operands))]
fn is_same_name(operand: Operand, name: u32) -> bool
    ensures { (result ≡ true) ↔ (Operand.Name name ≡ operand) }
{
    match operand {
        Operand::Name(other) => {
            if name != other {
                return false;
            }
            true
        }
        Operand::Lit(_) => false,
    }
}

/// Whether an operand is this literal.
#[tactic(auto, using(crate::proofs::Signatures::operands))]
fn is_same_literal(operand: Operand, value: i32) -> bool
    ensures { (result ≡ true) ↔ (Operand.Lit value ≡ operand) }
{
    match operand {
        Operand::Name(_) => false,
        Operand::Lit(other) => {
            if value != other {
                return false;
            }
            true
        }
    }
}

/// Whether two signatures are the same.
#[tactic(auto, using(crate::proofs::Signatures::signatures))]
fn is_same(one: Signature, other: Signature) -> bool
    ensures { (result ≡ true) ↔ (one ≡ other) }
{
    if one.kind != other.kind {
        return false;
    }
    if one.op != other.op {
        return false;
    }
    if one.array != other.array {
        return false;
    }
    if !one.one.is_same(other.one) {
        return false;
    }
    one.other.is_same(other.other)
}

impl Operand {
    /// Whether it is the same as another one.
    #[tactic(auto, using(crate::proofs::Signatures::operands))]
    pub fn is_same(self, other: Operand) -> bool
        ensures { (result ≡ true) ↔ (self ≡ other) }
    {
        match self {
            Operand::Name(name) => is_same_name(other, name),
            Operand::Lit(value) => is_same_literal(other, value),
        }
    }
}

impl Item {
    /// Whether it is equal to another one but for the names that they write: of one kind, with the
    /// same operator, array and operands.
    #[tactic(auto, using(crate::proofs::Signatures::alike))]
    pub fn is_alike(self, other: Item) -> bool
        ensures { (result ≡ true) ↔ AreAlike self other }
    {
        is_same(signature_of(self), signature_of(other))
    }
}
