//! Whether a row of a code does what the front of a window does.
ghost use Rattle.std.specs.Prelude.{◌≡◌, [], ◌∷◌, ◌++◌, OnOk, IfOk};
ghost use Rattle.pc_word.specs.StoredRow.{row_in};
ghost use Rattle.pc_matching.specs.Facts.{facts_of, helds_of, found_of};
ghost use Rattle.pc_matching.specs.RowMatch.{first_items, below_items, facts_at_leaf, leaf_match, match_below, row_match};
ghost use Rattle.pc_matching.specs.models.Searching.{IsPut};

use crate::after::facts_after;
use crate::effects::effects_match;
use crate::fact::{Fact, HeldList, ItemList};
use crate::matching::operands_match;
use pc_word::{Item, OutOfMemory, RowTree};
use std::alloc::{AllocError, Global};

/// Items with one more after them.
fn with_item(alloc: Global, items: &[Item], item: Item) -> Result<ItemList, AllocError>
    ensures { IfOk result (λ all. all ≡ items.now ++ item ∷ []) }
{
    let mut all = ItemList::from_slice(alloc, items)?;
    all.push(item)?;
    Ok(all)
}

/// Appends the items above the first test or leaf of a row.
fn push_first_items<M>(items: &mut ItemList, row: &RowTree<M>) -> Result<(), AllocError>
    ensures { OnOk result (items.new ≡ items.old ++ first_items (row_in (λ leaf. leaf) row.now)) }
{
    match row {
        RowTree::Step { item, next } => {
            items.push(*item)?;
            push_first_items(items, next)
        }
        RowTree::Test { .. } | RowTree::Leaf { .. } => Ok(()),
    }
}

/// Items with those above the first test or leaf of a row after them.
fn with_first_items<M>(
    alloc: Global,
    items: &[Item],
    row: &RowTree<M>,
) -> Result<ItemList, AllocError>
    ensures { IfOk result (λ all. all ≡ items.now ++ first_items (row_in (λ leaf. leaf) row.now)) }
{
    let mut all = ItemList::from_slice(alloc, items)?;
    push_first_items(&mut all, row)?;
    Ok(all)
}

/// The first test of a row with its sides, or its leaf.
fn below_items<M>(row: &RowTree<M>) -> &RowTree<M>
    ensures { row_in (λ leaf. leaf) result.now ≡ below_items (row_in (λ leaf. leaf) row.now) }
{
    match row {
        RowTree::Step { next, .. } => below_items(next),
        RowTree::Test { .. } | RowTree::Leaf { .. } => row,
    }
}

/// Appends the facts after two paths to those at other leaves, if the effects of both paths match.
/// Tells whether they do.
#[tactic(auto, using(crate::proofs::Stored::put))]
fn push_facts_after(
    alloc: Global,
    facts: &[Fact],
    items: &[Item],
    others: &[Item],
    helds: &mut HeldList,
) -> Result<bool, AllocError>
    ensures { IfOk result (λ found. IsPut (helds_of helds.old) (helds_of helds.new) (facts_at_leaf (facts_of facts.now) items.now others.now) found) }
{
    if !effects_match(alloc, facts, items, others)? {
        return Ok(false);
    }
    let held = facts_after(alloc, facts, items, others)?;
    helds.push(held)?;
    Ok(true)
}

/// Appends the facts at the leaf of a path to those at others, if what stands below the items of a
/// front is a leaf, and the effects of both paths match. Tells whether it is so.
#[tactic(auto, using(crate::proofs::Stored::put))]
fn match_leaf<M>(
    alloc: Global,
    facts: &[Fact],
    items: &[Item],
    others: &[Item],
    below: &RowTree<M>,
    helds: &mut HeldList,
) -> Result<bool, AllocError>
    ensures { IfOk result (λ found. IsPut (helds_of helds.old) (helds_of helds.new)
        (leaf_match (facts_of facts.now) items.now others.now (row_in (λ leaf. leaf) below.now)) found) }
{
    match below {
        RowTree::Leaf { .. } => push_facts_after(alloc, facts, items, others, helds),
        RowTree::Step { .. } | RowTree::Test { .. } => Ok(false),
    }
}

/// Appends the facts at each leaf of a row to those at others, where these items of the row and of
/// a front stand above; where the row does not do what the front does, it tells so.
#[tactic(auto, using(crate::proofs::Stored::put))]
fn match_below<L, M>(
    alloc: Global,
    facts: &[Fact],
    row: &RowTree<L>,
    items: &[Item],
    front: &RowTree<M>,
    others: &[Item],
    helds: &mut HeldList,
) -> Result<bool, AllocError>
    ensures { IfOk result (λ found. IsPut (helds_of helds.old) (helds_of helds.new)
        (match_below (facts_of facts.now) items.now others.now (row_in (λ leaf. leaf) row.now) (row_in (λ leaf. leaf) front.now)) found) }
{
    match row {
        RowTree::Step { item, next } => {
            let items = with_item(alloc, items, *item)?;
            match_below(alloc, facts, next, items.as_slice(), front, others, helds)
        }
        RowTree::Test { on, yes, no } => {
            let others = with_first_items(alloc, others, front)?;
            let others = others.as_slice();
            let RowTree::Test {
                on: front_on,
                yes: front_yes,
                no: front_no,
            } = below_items(front)
            else {
                return Ok(false);
            };
            Ok(
                operands_match(facts, *on, *front_on)
                    && match_below(alloc, facts, yes, items, front_yes, others, helds)?
                    && match_below(alloc, facts, no, items, front_no, others, helds)?,
            )
        }
        RowTree::Leaf { .. } => {
            let others = with_first_items(alloc, others, front)?;
            let below = below_items(front);
            match_leaf(alloc, facts, items, others.as_slice(), below, helds)
        }
    }
}

/// Whether a row does what a front does, where these facts hold as it begins, and which facts hold at
/// each leaf then, in preorder: those of registers, literals and operands that neither writes, of what
/// is copied, and of what items compute that match. A front is a row whose leaves are what is left
/// after it; the leaves of neither are looked at. Tests match in their order, stores in any order, and
/// prints and reads in theirs.
///
/// `None`: it is not found to. A store, print or read is matched by the first that it matches; so a
/// row may be missed whose facts let one match several.
///
/// For each leaf it takes time in the product of the facts and of the items of both paths at most,
/// and memory for its facts; and, on the way down, for the items above at each item and test.
pub fn match_row<L, M>(
    alloc: Global,
    facts: &[Fact],
    row: &RowTree<L>,
    front: &RowTree<M>,
) -> Result<Option<HeldList>, OutOfMemory>
    ensures { IfOk result (λ found. found_of found
        ≡ row_match (facts_of facts.now) (row_in (λ leaf. leaf) row.now) (row_in (λ leaf. leaf) front.now)) }
{
    let mut helds = HeldList::new(alloc);
    let found = match_below(alloc, facts, row, &[], front, &[], &mut helds)?;
    if found {
        return Ok(Some(helds));
    }
    Ok(None)
}
