//! Whether operands and items of a row match those of a front. Nothing here takes memory.
ghost use Rattle.std.specs.Prelude.{◌≡◌};
ghost use Rattle.std.specs.List.{list_any};
ghost use Rattle.pc_matching.specs.Facts.{fact_of, facts_of};
ghost use Rattle.pc_matching.specs.Matching.{same_operand, same_operator, says_that, operands_match, each_matches, same_kind, items_match};
ghost use Rattle.pc_word.specs.Items.{operand_list};

use crate::fact::Fact;
use pc_word::{Item, OpCode, Operand, Operands};

/// Whether operands are the same.
pub fn same_operand(one: Operand, other: Operand) -> bool
    ensures { result ≡ same_operand one other }
{
    match one {
        Operand::Name(name) => match other {
            Operand::Name(second) => name == second,
            Operand::Lit(_) => false,
        },
        Operand::Lit(value) => match other {
            Operand::Name(_) => false,
            Operand::Lit(second) => value == second,
        },
    }
}

/// Whether operators are the same.
fn same_operator(op: OpCode, other: OpCode) -> bool
    ensures { result ≡ same_operator op other }
{
    op.number() == other.number()
}

/// Whether a fact says that a source has an operand's value.
fn says_that(source: Operand, operand: Operand, fact: &Fact) -> bool
    ensures { result ≡ says_that source operand (fact_of fact.now) }
{
    same_operand(fact.source, source) && same_operand(fact.operand, operand)
}

/// Whether one of these facts does.
fn is_said(facts: &[Fact], source: Operand, operand: Operand) -> bool
    ensures { result ≡ list_any (says_that source operand) (facts_of facts.now) }
{
    for fact in facts {
        if says_that(source, operand, fact) {
            return true;
        }
    }
    false
}

/// Whether an operand of a row matches one of a front.
pub fn operands_match(facts: &[Fact], source: Operand, operand: Operand) -> bool
    ensures { result ≡ operands_match (facts_of facts.now) source operand }
{
    match source {
        Operand::Name(_) => is_said(facts, source, operand),
        Operand::Lit(value) => match operand {
            Operand::Name(_) => is_said(facts, source, operand),
            Operand::Lit(other) => value == other,
        },
    }
}

/// Whether operands of a row match those of a front one by one.
fn each_matches(facts: &[Fact], sources: Operands, operands: Operands) -> bool
    ensures { result ≡ each_matches (facts_of facts.now) (operand_list sources) (operand_list operands) }
{
    match (sources, operands) {
        (Operands::None, Operands::None) => true,
        (Operands::One(source), Operands::One(operand)) => operands_match(facts, source, operand),
        (Operands::Two(left, right), Operands::Two(front_left, front_right)) => {
            operands_match(facts, left, front_left) && operands_match(facts, right, front_right)
        }
        _ => false,
    }
}

/// Whether items are of one kind, with the same operator and array.
fn same_kind(item: Item, other: Item) -> bool
    ensures { result ≡ same_kind item other }
{
    match (item, other) {
        (Item::Bin { op, .. }, Item::Bin { op: front_op, .. }) => same_operator(op, front_op),
        (Item::Load { array, .. }, Item::Load { array: front, .. }) => array == front,
        (Item::Store { array, .. }, Item::Store { array: front, .. }) => array == front,
        (Item::Copy { .. }, Item::Copy { .. })
        | (Item::Print { .. }, Item::Print { .. })
        | (Item::Read { .. }, Item::Read { .. })
        | (Item::More { .. }, Item::More { .. }) => true,
        _ => false,
    }
}

/// Whether an item of a row matches one of a front.
pub(crate) fn items_match(facts: &[Fact], item: Item, other: Item) -> bool
    ensures { result ≡ items_match (facts_of facts.now) item other }
{
    same_kind(item, other) && each_matches(facts, item.operands(), other.operands())
}
