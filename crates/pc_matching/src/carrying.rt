//! Facts that are appended to others: those before two paths, and what follows from each after them.
ghost use Rattle.std.specs.Prelude.{◌≡◌, ◌++◌, map, filter, OnOk};
ghost use Rattle.std.specs.List.{flat_map};
ghost use Rattle.pc_matching.specs.Facts.{fact_of, facts_of};
ghost use Rattle.pc_matching.specs.FactsAfter.{that, some_name, is_of_name, copied_literal, carried, same_after, is_copy, computed_by, computed};
ghost use Rattle.pc_word.specs.Items.{dest_of};

use crate::fact::{Fact, FactList};
use crate::matching::items_match;
use crate::writers::same_after;
use pc_word::{Item, Operand};
use std::alloc::{AllocError, Global};

/// Whether one of two operands is a name.
pub fn some_name(source: Operand, operand: Operand) -> bool
    ensures { result ≡ some_name source operand }
{
    match source {
        Operand::Name(_) => true,
        Operand::Lit(_) => match operand {
            Operand::Name(_) => true,
            Operand::Lit(_) => false,
        },
    }
}

/// Appends the facts that say something of a name.
pub(crate) fn push_given(before: &mut FactList, facts: &[Fact]) -> Result<(), AllocError>
    ensures { OnOk result (facts_of before.new ≡ facts_of before.old ++ filter is_of_name (facts_of facts.now)) }
{
    for fact in facts {
        if some_name(fact.source, fact.operand) {
            before.push(*fact)?;
        }
    }
    Ok(())
}

/// Appends that the literal which an item copies has its own value.
fn push_literal(before: &mut FactList, item: Item) -> Result<(), AllocError>
    ensures { OnOk result (facts_of before.new ≡ facts_of before.old ++ copied_literal item) }
{
    match item {
        Item::Copy {
            from: Operand::Lit(value),
            ..
        } => before.push(Fact {
            source: Operand::Lit(value),
            operand: Operand::Lit(value),
        }),
        _ => Ok(()),
    }
}

/// Appends that the literals which these items copy have their own values.
pub(crate) fn push_literals(before: &mut FactList, writers: &[Item]) -> Result<(), AllocError>
    ensures { OnOk result (facts_of before.new ≡ facts_of before.old ++ flat_map copied_literal writers.now) }
{
    for item in writers {
        push_literal(before, *item)?;
    }
    Ok(())
}

/// Appends that a source has the values of these operands.
fn push_said(after: &mut FactList, source: Operand, operands: &[Operand]) -> Result<(), AllocError>
    ensures { OnOk result (facts_of after.new ≡ facts_of after.old ++ map (that source) operands.now) }
{
    for operand in operands {
        after.push(Fact {
            source,
            operand: *operand,
        })?;
    }
    Ok(())
}

/// Appends that each of these sources has the values of these operands.
fn push_pairs(
    after: &mut FactList,
    sources: &[Operand],
    operands: &[Operand],
) -> Result<(), AllocError>
    ensures { OnOk result (facts_of after.new ≡ facts_of after.old ++ flat_map (λ source. map (that source) operands.now) sources.now) }
{
    for source in sources {
        push_said(after, *source, operands)?;
    }
    Ok(())
}

/// Appends what follows after two paths from a fact before them.
fn push_carried(
    alloc: Global,
    after: &mut FactList,
    fact: Fact,
    writers: &[Item],
    others: &[Item],
) -> Result<(), AllocError>
    ensures { OnOk result (facts_of after.new ≡ facts_of after.old ++ carried writers.now others.now (fact_of fact)) }
{
    let sources = same_after(alloc, writers, fact.source)?;
    let operands = same_after(alloc, others, fact.operand)?;
    push_pairs(after, sources.as_slice(), operands.as_slice())
}

/// Appends what follows after two paths from facts before them.
pub(crate) fn push_each_carried(
    alloc: Global,
    after: &mut FactList,
    before: &[Fact],
    writers: &[Item],
    others: &[Item],
) -> Result<(), AllocError>
    ensures { OnOk result (facts_of after.new ≡ facts_of after.old ++ flat_map (carried writers.now others.now) (facts_of before.now)) }
{
    for fact in before {
        push_carried(alloc, after, *fact, writers, others)?;
    }
    Ok(())
}

/// Whether an item copies an operand.
fn is_copy(item: Item) -> bool
    ensures { result ≡ is_copy item }
{
    matches!(item, Item::Copy { .. })
}

/// Appends what follows from two items, if they match and are no copies.
fn push_same_names(
    after: &mut FactList,
    facts: &[Fact],
    item: Item,
    other: Item,
) -> Result<(), AllocError>
    ensures { OnOk result (facts_of after.new ≡ facts_of after.old ++ computed_by (facts_of facts.now) item other) }
{
    if is_copy(item) {
        return Ok(());
    }
    if !items_match(facts, item, other) {
        return Ok(());
    }
    match item.dest() {
        Some(register) => match other.dest() {
            Some(name) => after.push(Fact {
                source: Operand::Name(register),
                operand: Operand::Name(name),
            }),
            None => Ok(()),
        },
        None => Ok(()),
    }
}

/// Appends what follows from an item and each of these that it matches.
fn push_computed_by(
    after: &mut FactList,
    facts: &[Fact],
    item: Item,
    others: &[Item],
) -> Result<(), AllocError>
    ensures { OnOk result (facts_of after.new ≡ facts_of after.old ++ flat_map (computed_by (facts_of facts.now) item) others.now) }
{
    for other in others {
        push_same_names(after, facts, item, *other)?;
    }
    Ok(())
}

/// Appends what follows from all items that match.
pub(crate) fn push_computed(
    after: &mut FactList,
    facts: &[Fact],
    writers: &[Item],
    others: &[Item],
) -> Result<(), AllocError>
    ensures { OnOk result (facts_of after.new ≡ facts_of after.old ++ computed (facts_of facts.now) writers.now others.now) }
{
    for item in writers {
        push_computed_by(after, facts, *item, others)?;
    }
    Ok(())
}
