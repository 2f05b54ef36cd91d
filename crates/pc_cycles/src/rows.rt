//! The path through a row to one of its leaves.
ghost use Rattle.std.specs.Prelude.{◌≡◌, ◌++◌, ◌<◌, ◌^◌, length, slice_get, OnOk};
ghost use Rattle.std.specs.Option.{option_copied};
ghost use Rattle.pc_word.specs.Row.{leaves_of};
ghost use Rattle.pc_word.specs.StoredRow.{row_in};
ghost use Rattle.pc_told.specs.Tellings.{telling_in};
ghost use Rattle.pc_cycles.specs.Transitions.{leaf_to, successor_of, items_to, tests_to, taken_to, origins_to, item_origin_to, told_items_to, advance_to};

use crate::ToldItemList;
use crate::told_item::ToldItem;
use pc_automaton::{AutomatonLeaf, OperandList};
use pc_told::ToldRow;
use pc_word::{Item, RowTree, Seq};
use std::alloc::AllocError;

/// How many leaves a row has.
pub(crate) fn leaf_count(row: &RowTree<AutomatonLeaf>) -> u32
    requires { length (leaves_of (row_in (λ leaf. leaf) row.now)) < 2 ^ 32 }
    ensures { result ≡ length (leaves_of (row_in (λ leaf. leaf) row.now)) }
{
    match row {
        RowTree::Step { next, .. } => leaf_count(next),
        RowTree::Test { yes, no, .. } => leaf_count(yes) + leaf_count(no),
        RowTree::Leaf { .. } => 1,
    }
}

/// A leaf, by its number, if it is there.
pub(crate) fn leaf_at(row: &RowTree<AutomatonLeaf>, leaf: u32) -> Option<&AutomatonLeaf>
    requires { length (leaves_of (row_in (λ leaf. leaf) row.now)) < 2 ^ 32 }
    ensures { option_copied result ≡ leaf_to (row_in (λ leaf. leaf) row.now) leaf }
{
    match row {
        RowTree::Step { next, .. } => leaf_at(next, leaf),
        RowTree::Test { yes, no, .. } => {
            let on_yes = leaf_count(yes);
            if leaf < on_yes {
                return leaf_at(yes, leaf);
            }
            leaf_at(no, leaf - on_yes)
        }
        RowTree::Leaf { leaf: here } => {
            if leaf != 0 {
                return None;
            }
            Some(here)
        }
    }
}

/// The item with this number among those on the path to a leaf, counted from 0, with what is told of it, if there are so many.
pub(crate) fn told_item_at(
    row: &RowTree<AutomatonLeaf>,
    told: &ToldRow,
    leaf: u32,
    number: u32,
) -> Option<ToldItem>
    requires { length (leaves_of (row_in (λ leaf. leaf) row.now)) < 2 ^ 32 }
    ensures { result ≡ slice_get (told_items_to (row_in (λ leaf. leaf) row.now) (telling_in told.now) leaf) number }
{
    match (row, told) {
        (
            RowTree::Step { item, next },
            ToldRow::Step {
                iteration,
                origin,
                next: below,
                ..
            },
        ) => {
            if number == 0 {
                return Some(ToldItem {
                    iteration: *iteration,
                    origin: *origin,
                    item: *item,
                });
            }
            told_item_at(next, below, leaf, number - 1)
        }
        (
            RowTree::Test { yes, no, .. },
            ToldRow::Test {
                yes: one,
                no: other,
                ..
            },
        ) => {
            let on_yes = leaf_count(yes);
            if leaf < on_yes {
                return told_item_at(yes, one, leaf, number);
            }
            told_item_at(no, other, leaf - on_yes, number)
        }
        _ => None,
    }
}

/// Appends the items on the path to a leaf, with what is told of each.
pub(crate) fn push_told_items(
    row: &RowTree<AutomatonLeaf>,
    told: &ToldRow,
    leaf: u32,
    items: &mut ToldItemList,
) -> Result<(), AllocError>
    requires { length (leaves_of (row_in (λ leaf. leaf) row.now)) < 2 ^ 32 }
{
    match (row, told) {
        (
            RowTree::Step { item, next },
            ToldRow::Step {
                iteration,
                origin,
                next: below,
                ..
            },
        ) => {
            items.push(ToldItem {
                iteration: *iteration,
                origin: *origin,
                item: *item,
            })?;
            push_told_items(next, below, leaf, items)
        }
        (
            RowTree::Test { yes, no, .. },
            ToldRow::Test {
                yes: one,
                no: other,
                ..
            },
        ) => {
            let on_yes = leaf_count(yes);
            if leaf < on_yes {
                return push_told_items(yes, one, leaf, items);
            }
            push_told_items(no, other, leaf - on_yes, items)
        }
        _ => Ok(()),
    }
}

/// By how many iterations what is left at a leaf begins later, where anything is.
pub(crate) fn advance_at(row: &RowTree<AutomatonLeaf>, told: &ToldRow, leaf: u32) -> Option<u32>
    requires { length (leaves_of (row_in (λ leaf. leaf) row.now)) < 2 ^ 32 }
    ensures { result ≡ advance_to (row_in (λ leaf. leaf) row.now) (telling_in told.now) leaf }
{
    match (row, told) {
        (RowTree::Step { next, .. }, ToldRow::Step { next: below, .. }) => {
            advance_at(next, below, leaf)
        }
        (
            RowTree::Test { yes, no, .. },
            ToldRow::Test {
                yes: one,
                no: other,
                ..
            },
        ) => {
            let on_yes = leaf_count(yes);
            if leaf < on_yes {
                return advance_at(yes, one, leaf);
            }
            advance_at(no, other, leaf - on_yes)
        }
        (RowTree::Leaf { .. }, ToldRow::Leaf { advance }) => {
            if leaf != 0 {
                return None;
            }
            *advance
        }
        _ => None,
    }
}

/// The state to which a leaf leads, by its number, if it is there and leads to one.
pub(crate) fn successor_at(row: &RowTree<AutomatonLeaf>, leaf: u32) -> Option<u32>
    requires { length (leaves_of (row_in (λ leaf. leaf) row.now)) < 2 ^ 32 }
    ensures { result ≡ successor_of (leaf_to (row_in (λ leaf. leaf) row.now) leaf) }
{
    match leaf_at(row, leaf) {
        Some(leaf) => successor_of(leaf),
        None => None,
    }
}

/// The state to which a leaf leads, if it leads to one.
fn successor_of(leaf: &AutomatonLeaf) -> Option<u32>
    ensures { result ≡ successor_of (Some leaf.now) }
{
    match leaf {
        AutomatonLeaf::To { state, .. } => Some(*state),
        AutomatonLeaf::Out { .. } => None,
        AutomatonLeaf::Stop => None,
        AutomatonLeaf::Trap { .. } => None,
    }
}

/// Appends the items on the path to a leaf.
pub(crate) fn push_items(
    row: &RowTree<AutomatonLeaf>,
    leaf: u32,
    items: &mut Seq<Item>,
) -> Result<(), AllocError>
    requires { length (leaves_of (row_in (λ leaf. leaf) row.now)) < 2 ^ 32 }
    ensures { OnOk result (items.new ≡ items.old ++ items_to (row_in (λ leaf. leaf) row.now) leaf) }
{
    match row {
        RowTree::Step { item, next } => {
            items.push(*item)?;
            push_items(next, leaf, items)
        }
        RowTree::Test { yes, no, .. } => {
            let on_yes = leaf_count(yes);
            if leaf < on_yes {
                return push_items(yes, leaf, items);
            }
            push_items(no, leaf - on_yes, items)
        }
        RowTree::Leaf { .. } => Ok(()),
    }
}

/// Appends the operands of the tests on it.
pub(crate) fn push_tests(
    row: &RowTree<AutomatonLeaf>,
    leaf: u32,
    tests: &mut OperandList,
) -> Result<(), AllocError>
    requires { length (leaves_of (row_in (λ leaf. leaf) row.now)) < 2 ^ 32 }
    ensures { OnOk result (tests.new ≡ tests.old ++ tests_to (row_in (λ leaf. leaf) row.now) leaf) }
{
    match row {
        RowTree::Step { next, .. } => push_tests(next, leaf, tests),
        RowTree::Test { on, yes, no } => {
            tests.push(*on)?;
            let on_yes = leaf_count(yes);
            if leaf < on_yes {
                return push_tests(yes, leaf, tests);
            }
            push_tests(no, leaf - on_yes, tests)
        }
        RowTree::Leaf { .. } => Ok(()),
    }
}

/// Appends the operands of those that are taken: it goes on to their yes side.
pub(crate) fn push_taken(
    row: &RowTree<AutomatonLeaf>,
    leaf: u32,
    taken: &mut OperandList,
) -> Result<(), AllocError>
    requires { length (leaves_of (row_in (λ leaf. leaf) row.now)) < 2 ^ 32 }
    ensures { OnOk result (taken.new ≡ taken.old ++ taken_to (row_in (λ leaf. leaf) row.now) leaf) }
{
    match row {
        RowTree::Step { next, .. } => push_taken(next, leaf, taken),
        RowTree::Test { on, yes, no } => {
            let on_yes = leaf_count(yes);
            if leaf < on_yes {
                taken.push(*on)?;
                return push_taken(yes, leaf, taken);
            }
            push_taken(no, leaf - on_yes, taken)
        }
        RowTree::Leaf { .. } => Ok(()),
    }
}

/// Appends the origins that are told of the tests, and of the items too, if they are asked for.
pub(crate) fn push_origins(
    row: &RowTree<AutomatonLeaf>,
    told: &ToldRow,
    leaf: u32,
    of_items: bool,
    origins: &mut Seq<u32>,
) -> Result<(), AllocError>
    requires { length (leaves_of (row_in (λ leaf. leaf) row.now)) < 2 ^ 32 }
    ensures { OnOk result (origins.new ≡ origins.old ++ origins_to of_items (row_in (λ leaf. leaf) row.now) (telling_in told.now) leaf) }
{
    match (row, told) {
        (
            RowTree::Step { next, .. },
            ToldRow::Step {
                origin,
                next: below,
                ..
            },
        ) => {
            if of_items {
                origins.push(*origin)?;
            }
            push_origins(next, below, leaf, of_items, origins)
        }
        (
            RowTree::Test { yes, no, .. },
            ToldRow::Test {
                origin,
                yes: one,
                no: other,
                ..
            },
        ) => {
            origins.push(*origin)?;
            let on_yes = leaf_count(yes);
            if leaf < on_yes {
                return push_origins(yes, one, leaf, of_items, origins);
            }
            push_origins(no, other, leaf - on_yes, of_items, origins)
        }
        _ => Ok(()),
    }
}

/// The origin that is told of the item with this number among those on the path to a leaf, counted from 0, if there are so many and
/// the told row has the shape of the row.
pub fn item_origin(
    row: &RowTree<AutomatonLeaf>,
    told: &ToldRow,
    leaf: u32,
    number: u32,
) -> Option<u32>
    requires { length (leaves_of (row_in (λ leaf. leaf) row.now)) < 2 ^ 32 }
    ensures { result ≡ item_origin_to (row_in (λ leaf. leaf) row.now) (telling_in told.now) leaf number }
{
    match (row, told) {
        (
            RowTree::Step { next, .. },
            ToldRow::Step {
                origin,
                next: below,
                ..
            },
        ) => {
            if number == 0 {
                return Some(*origin);
            }
            item_origin(next, below, leaf, number - 1)
        }
        (
            RowTree::Test { yes, no, .. },
            ToldRow::Test {
                yes: one,
                no: other,
                ..
            },
        ) => {
            let on_yes = leaf_count(yes);
            if leaf < on_yes {
                return item_origin(yes, one, leaf, number);
            }
            item_origin(no, other, leaf - on_yes, number)
        }
        _ => None,
    }
}
