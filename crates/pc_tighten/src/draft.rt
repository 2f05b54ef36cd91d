//! Rows that items are taken from and put into.
ghost use Rattle.std.specs.Prelude.{◌≡◌, ◌-◌, ◌<◌, ◌||◌, nat_le, length, IfOk, OnOk, MatchOption};
ghost use Rattle.std.specs.List.{list_any, count_by};
ghost use Rattle.pc_word.specs.Items.{dest_of, is_memory};
ghost use Rattle.pc_word.specs.Row.{items_of, tests_of};
ghost use Rattle.pc_machine.specs.MachineCode.{row_of};
ghost use Rattle.pc_tighten.specs.Compact.{is_dest, is_full, comes_after, is_awaited_by, paths_to};
ghost use Rattle.pc_tighten.specs.Moves.{below, with_item};
ghost use Rattle.pc_tighten.specs.models.Drafts.{draft_row, BeginsWithNoItem, IsSplit, comes_after_path, items_but, held_at, FirstStay, MayGoUp};

use crate::reasons::{comes_after, comes_after_some, is_awaited_by, is_awaited_by_some, is_tested};
use pc_machine::Tree;
use pc_word::{Item, Limits, RowTree};
use std::alloc::{AllocError, Global};

/// A row: its items before its first test, and what stands below them.
#[derive(Drop)]
pub(crate) struct Draft {
    pub(crate) items: Vec<Item>,
    pub(crate) rest: Tree,
}

/// The draft of a row.
pub(crate) fn drafted(alloc: Global, tree: Tree) -> Result<Draft, AllocError>
    ensures row { IfOk result (λ draft. draft_row draft ≡ row_of tree) }
    ensures split { IfOk result (λ draft. IsSplit draft) }
{
    let mut items = Vec::new(alloc);
    let rest = split(tree, &mut items)?;
    Ok(Draft { items, rest })
}

/// Appends the items before the first test to others, and gives what stands below them.
#[tactic(auto, using(crate::proofs::Drafting::rows_below))]
fn split(tree: Tree, items: &mut Vec<Item>) -> Result<Tree, AllocError>
    ensures row { IfOk result (λ rest. below items.new.items (row_of rest) ≡ below items.old.items (row_of tree)) }
    ensures split { IfOk result (λ rest. BeginsWithNoItem (row_of rest)) }
{
    match tree {
        RowTree::Step { item, next } => {
            items.push(item)?;
            split(Box::into_inner(next), items)
        }
        RowTree::Test { .. } | RowTree::Leaf { .. } => Ok(tree),
    }
}

/// The tree of a draft.
#[tactic(auto, using(crate::proofs::Drafting::rows_below))]
pub(crate) fn rebuilt(alloc: Global, draft: Draft) -> Result<Tree, AllocError>
    ensures { IfOk result (λ tree. row_of tree ≡ draft_row draft) }
{
    let Draft { mut items, rest } = draft;
    let mut tree = rest;
    while let Some(item) = items.pop() {
        let next = Box::new(alloc, tree)?;
        tree = RowTree::Step { item, next };
    }
    Ok(tree)
}

/// Puts an item at the end of each path of a tree to the row `to`.
fn put_below(alloc: Global, tree: &mut Tree, to: usize, item: Item) -> Result<(), AllocError>
    ensures { OnOk result (row_of tree.new ≡ with_item to item (row_of tree.old)) }
{
    match tree {
        RowTree::Step { next, .. } => put_below(alloc, next, to, item),
        RowTree::Test { yes, no, .. } => {
            put_below(alloc, yes, to, item)?;
            put_below(alloc, no, to, item)
        }
        RowTree::Leaf { leaf } => {
            let leaf = *leaf;
            if leaf.is_goto(to) {
                let next = Box::new(alloc, RowTree::Leaf { leaf })?;
                *tree = RowTree::Step { item, next };
            }
            Ok(())
        }
    }
}

/// The room that is left once the items of a tree are in it.
fn left_for_items(tree: &Tree, room: usize) -> usize
    ensures { result ≡ room - length (items_of (row_of tree.now)) }
{
    match tree {
        RowTree::Step { next, .. } => left_for_items(next, room.saturating_sub(1)),
        RowTree::Test { yes, no, .. } => left_for_items(no, left_for_items(yes, room)),
        RowTree::Leaf { .. } => room,
    }
}

/// The room that is left once the loads and stores of a tree are in it.
fn left_for_memory(tree: &Tree, room: usize) -> usize
    ensures { result ≡ room - count_by is_memory (items_of (row_of tree.now)) }
{
    match tree {
        RowTree::Step { item, next } => {
            let used = usize::from(item.is_memory());
            left_for_memory(next, room.saturating_sub(used))
        }
        RowTree::Test { yes, no, .. } => left_for_memory(no, left_for_memory(yes, room)),
        RowTree::Leaf { .. } => room,
    }
}

/// Whether an item comes after some item of a path to the row `to`, or after one above the tree.
#[tactic(auto, using(crate::proofs::Drafting::path_laws))]
fn comes_after_below(tree: &Tree, to: usize, x: Item, above: bool) -> bool
    ensures { result ≡ list_any (λ path. above || list_any (comes_after x) path) (paths_to to (row_of tree.now)) }
{
    match tree {
        RowTree::Step { item, next } => {
            let above = either(above, comes_after(x, *item));
            comes_after_below(next, to, x, above)
        }
        RowTree::Test { yes, no, .. } => {
            comes_after_below(yes, to, x, above) || comes_after_below(no, to, x, above)
        }
        RowTree::Leaf { leaf } => leaf.is_goto(to) && above,
    }
}

/// Whether one of two facts holds.
pub(crate) fn either(one: bool, other: bool) -> bool
    ensures { result ≡ (one || other) }
{
    one || other
}

/// Whether an item of a tree awaits another item.
fn is_awaited_below(tree: &Tree, x: Item) -> bool
    ensures { result ≡ list_any (λ y. is_awaited_by x y) (items_of (row_of tree.now)) }
{
    match tree {
        RowTree::Step { item, next } => is_awaited_by(x, *item) || is_awaited_below(next, x),
        RowTree::Test { yes, no, .. } => is_awaited_below(yes, x) || is_awaited_below(no, x),
        RowTree::Leaf { .. } => false,
    }
}

/// Whether a test of a tree reads what an item writes.
fn is_tested_below(tree: &Tree, x: Item) -> bool
    ensures { result ≡ list_any (λ on. is_dest on (dest_of x)) (tests_of (row_of tree.now)) }
{
    match tree {
        RowTree::Step { next, .. } => is_tested_below(next, x),
        RowTree::Test { on, yes, no } => {
            is_tested(x, *on) || is_tested_below(yes, x) || is_tested_below(no, x)
        }
        RowTree::Leaf { .. } => false,
    }
}

/// Puts an item at the end of each path of a row to the row `to`.
#[tactic(auto, using(crate::proofs::Drafting::put_laws))]
pub(crate) fn put(alloc: Global, draft: &mut Draft, to: usize, item: Item) -> Result<(), AllocError>
    ensures row { OnOk result (draft_row draft.new ≡ with_item to item (draft_row draft.old)) }
    ensures split { OnOk result (IsSplit draft.old → IsSplit draft.new) }
{
    match &mut draft.rest {
        RowTree::Leaf { leaf } => {
            if leaf.is_goto(to) {
                draft.items.push(item)?;
            }
            Ok(())
        }
        tree => put_below(alloc, tree, to, item),
    }
}

/// Whether a row has no room for an item more.
fn is_full(limits: Limits, above: &Draft, x: Item) -> bool
    ensures { result ≡ is_full limits (draft_row above.now) x }
{
    has_no_room(limits, above) || x.is_memory() && has_no_room_for_memory(limits, above)
}

/// Whether a row has as many items as a row may have.
#[tactic(auto, using(crate::proofs::Drafting::counts_below))]
fn has_no_room(limits: Limits, above: &Draft) -> bool
    ensures { result ≡ nat_le limits.ops (length (items_of (draft_row above.now))) }
{
    let room = usize::from(limits.ops).saturating_sub(above.items.len());
    left_for_items(&above.rest, room) == 0
}

/// Whether a row has as many loads and stores as a row may have.
#[tactic(auto, using(crate::proofs::Drafting::counts_below))]
fn has_no_room_for_memory(limits: Limits, above: &Draft) -> bool
    ensures { result ≡ nat_le limits.mem (count_by is_memory (items_of (draft_row above.now))) }
{
    let used = above.items.iter().filter(|item| item.is_memory()).count();
    let room = usize::from(limits.mem).saturating_sub(used);
    left_for_memory(&above.rest, room) == 0
}

/// Whether an item comes after some item of a path of a row to the row `to`.
#[tactic(auto, using(crate::proofs::Drafting::path_laws))]
fn comes_after_path(above: &Draft, to: usize, x: Item) -> bool
    ensures { result ≡ comes_after_path x to (draft_row above.now) }
{
    let found = comes_after_some(x, &above.items);
    comes_after_below(&above.rest, to, x, found)
}

/// Whether another item of a row than the one at a place, which is this one, awaits it.
#[tactic(auto, using(crate::proofs::Drafting::others_laws))]
fn is_awaited(under: &Draft, at: usize, x: Item) -> bool
    requires { at < length under.now.items.items }
    ensures { result ≡ list_any (is_awaited_by x) (items_but under.now at) }
{
    is_awaited_by_some(x, &under.items[..at])
        || is_awaited_by_some(x, &under.items[at + 1..])
        || is_awaited_below(&under.rest, x)
}

/// Whether an item, the one at a place of the row `to`, has a reason to stay there.
pub(crate) fn is_held(
    limits: Limits,
    above: &Draft,
    to: usize,
    under: &Draft,
    at: usize,
    x: Item,
) -> bool
    requires { at < length under.now.items.items }
    ensures { result ≡ held_at limits above.now to under.now at x }
{
    is_full(limits, above, x)
        || comes_after_path(above, to, x)
        || is_awaited(under, at, x)
        || is_tested_below(&under.rest, x)
}

/// The first item of the row `to` before its first test that has no reason to stay there.
pub(crate) fn first_free(limits: Limits, above: &Draft, to: usize, under: &Draft) -> Option<usize>
    ensures { MatchOption result (FirstStay limits above.now to under.now (length under.now.items.items)) (λ at. MayGoUp limits above.now to under.now at) }
{
    for at in 0..under.items.len() {
        let item = under.items[at];
        if !is_held(limits, above, to, under, at, item) {
            return Some(at);
        }
    }
    None
}
