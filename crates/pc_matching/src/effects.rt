//! Whether paths store, print and read the same.
ghost use Rattle.std.specs.Prelude.{◌≡◌, ◌++◌, Some, not, OnOk, IfOk};
ghost use Rattle.std.specs.List.{list_all};
ghost use Rattle.pc_certified.specs.Paths.{has_side_effect, is_ordered};
ghost use Rattle.pc_matching.specs.Facts.{facts_of};
ghost use Rattle.pc_matching.specs.Matching.{without_match, effects_match};

use crate::fact::{Fact, ItemList};
use crate::matching::items_match;
use pc_word::Item;
use std::alloc::{AllocError, Global};

/// Whether an item does more than give its name a word: it stores, prints or reads.
fn has_side_effect(item: Item) -> bool
    ensures { result ≡ has_side_effect item }
{
    matches!(
        item,
        Item::Store { .. } | Item::Print { .. } | Item::Read { .. }
    )
}

/// Whether its place among others of its kind matters: it prints or reads.
fn is_ordered(item: Item) -> bool
    ensures { result ≡ is_ordered item }
{
    matches!(item, Item::Print { .. } | Item::Read { .. })
}

/// Appends items.
fn push_items(items: &mut ItemList, more: &[Item]) -> Result<(), AllocError>
    ensures { OnOk result (items.new ≡ items.old ++ more.now) }
{
    for item in more {
        items.push(*item)?;
    }
    Ok(())
}

/// What is left of a front's path without the first item that matches this one, if there is one; a
/// print or read passes no other print or read.
fn without_match(
    alloc: Global,
    facts: &[Fact],
    item: Item,
    others: &[Item],
) -> Result<Option<ItemList>, AllocError>
    ensures { IfOk result (λ left. left ≡ without_match (facts_of facts.now) item others.now) }
{
    let mut left = ItemList::new(alloc);
    for at in 0..others.len() {
        let other = others[at];
        if items_match(facts, item, other) {
            push_items(&mut left, &others[at + 1..])?;
            return Ok(Some(left));
        }
        if is_ordered(item) && is_ordered(other) {
            return Ok(None);
        }
        left.push(other)?;
    }
    Ok(None)
}

/// Whether none of these items stores, prints or reads.
fn no_effects(items: &[Item]) -> bool
    ensures { result ≡ list_all (λ item. not (has_side_effect item)) items.now }
{
    items.iter().all(|item| !has_side_effect(*item))
}

/// Whether the stores, prints and reads of a row's path match those of a front's path.
pub(crate) fn effects_match(
    alloc: Global,
    facts: &[Fact],
    items: &[Item],
    others: &[Item],
) -> Result<bool, AllocError>
    ensures { IfOk result (λ found. found ≡ effects_match (facts_of facts.now) items.now others.now) }
{
    let mut left = ItemList::from_slice(alloc, others)?;
    for item in items {
        if has_side_effect(*item) {
            match without_match(alloc, facts, *item, left.as_slice())? {
                Some(rest) => left = rest,
                None => return Ok(false),
            }
        }
    }
    Ok(no_effects(left.as_slice()))
}
