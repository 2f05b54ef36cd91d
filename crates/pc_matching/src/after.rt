//! The facts that hold after a row's path and a front's path.
ghost use Rattle.std.specs.Prelude.{◌≡◌, IfOk};
ghost use Rattle.pc_matching.specs.Facts.{facts_of};
ghost use Rattle.pc_matching.specs.FactsAfter.{facts_before, after_writers, facts_after};

use crate::carrying::{push_computed, push_each_carried, push_given, push_literals};
use crate::fact::{Fact, FactList};
use crate::writers::first_writers;
use pc_word::Item;
use std::alloc::{AllocError, Global};

/// The facts before two paths: those that are given, and those of literals that the paths copy.
fn facts_before(
    alloc: Global,
    facts: &[Fact],
    writers: &[Item],
    others: &[Item],
) -> Result<FactList, AllocError>
    ensures { IfOk result (λ before. facts_of before ≡ facts_before (facts_of facts.now) writers.now others.now) }
{
    let mut before = FactList::new(alloc);
    push_given(&mut before, facts)?;
    push_literals(&mut before, writers)?;
    push_literals(&mut before, others)?;
    Ok(before)
}

/// The facts after the first writers of two paths.
fn after_writers(
    alloc: Global,
    facts: &[Fact],
    writers: &[Item],
    others: &[Item],
) -> Result<FactList, AllocError>
    ensures { IfOk result (λ after. facts_of after ≡ after_writers (facts_of facts.now) writers.now others.now) }
{
    let before = facts_before(alloc, facts, writers, others)?;
    let mut after = FactList::new(alloc);
    push_each_carried(alloc, &mut after, before.as_slice(), writers, others)?;
    push_computed(&mut after, facts, writers, others)?;
    Ok(after)
}

/// The facts that hold after a row's path and a front's path.
pub(crate) fn facts_after(
    alloc: Global,
    facts: &[Fact],
    items: &[Item],
    others: &[Item],
) -> Result<FactList, AllocError>
    ensures { IfOk result (λ after. facts_of after ≡ facts_after (facts_of facts.now) items.now others.now) }
{
    let writers = first_writers(alloc, items)?;
    let front_writers = first_writers(alloc, others)?;
    after_writers(alloc, facts, writers.as_slice(), front_writers.as_slice())
}
