//! The reader of rows.

ghost use Rattle.std.specs.Prelude.{◌≡◌, ◌+◌, ◌*◌, ◌≤◌, length, Result, Ok, Err, IfOk};
ghost use Rattle.pc_machine.specs.MachineCode.{row_of, rows_of};
ghost use Rattle.pc_word.specs.Row.{At_leaf};
ghost use Rattle.pc_word.specs.Items.{dest_of};
ghost use Rattle.pc_machine.specs.Checks.{above_of, IsDest};
ghost use Rattle.pc_machine.specs.Registers.{most_registers};
ghost use Rattle.pc_word.specs.Exact.{IsExact};
ghost use Rattle.pc_object.specs.models.HaltCause.{halt_cause};
ghost use Rattle.pc_object.specs.Reading.{at_field, counted_item, is_memory_kind, is_effect_kind, fields_at, goto_at, trap_fields_at, step_at, test_at, row_at, rows_at};

use crate::fields::{array, at_field, dest, flawed, number, operand, operator, tag, trap_kind};
use crate::refusal::Halt;
use crate::tag::{ItemKind, Tag};
use pc_machine::{Bounds, Counts, Flaw, Leaf, Path, Tree};
use pc_word::{Item, MOST_OPS, MOST_TESTS, RowTree};
use std::alloc::Global;

/// How many items and tests of a row stand above each other at most, and a leaf below them.
const DEEPEST: u8 = MOST_OPS + MOST_TESTS + 1;

/// The rows of a code, as many as it has.
pub fn rows<'a>(
    alloc: Global,
    bounds: &Bounds,
    bytes: &'a [u8],
) -> Result<(Vec<Tree>, &'a [u8]), Halt>
    ensures { IsExact (λ x. (rows_of x.0.items, x.1.now)) halt_cause result (rows_at bounds.now bounds.now.rows bytes.now) }
{
    let path = Path::root();
    let mut rows = Vec::new(alloc);
    let mut rest = bytes;
    for _ in 0..bounds.rows {
        let (tree, _, after) = row(alloc, bounds, DEEPEST, Counts::none(), &path, rest)?;
        rows.push(tree)?;
        rest = after;
    }
    Ok((rows, rest))
}

/// A row, or the part of one that stands after these counts and under this path.
///
/// It goes no deeper than `depth`, which the limits of a row never let it reach.
#[cycle(row)]
#[tactic(auto, unfolding(crate::specs::Reading::row_at, crate::specs::Reading::behind_tag))]
fn row<'a>(
    alloc: Global,
    bounds: &Bounds,
    depth: u8,
    counts: Counts,
    path: &Path,
    bytes: &'a [u8],
) -> Result<(Tree, Counts, &'a [u8]), Halt>
    ensures { IsExact (λ x. (row_of x.0, x.1, x.2.now)) halt_cause result (row_at bounds.now depth counts (above_of path.now) bytes.now) }
{
    if depth == 0 {
        return Err(flawed(bytes, Flaw::Tag));
    }
    let (tag, rest) = tag(bytes)?;
    match tag {
        Tag::Goto => {
            let (tree, rest) = goto(bounds, rest)?;
            Ok((tree, counts, rest))
        }
        Tag::Stop => Ok((RowTree::Leaf { leaf: Leaf::Stop }, counts, rest)),
        Tag::Trap => {
            let (tree, rest) = trap(rest)?;
            Ok((tree, counts, rest))
        }
        Tag::Test => {
            let counts = at_field(bytes, bounds.test_tag(counts))?;
            test(alloc, bounds, depth - 1, counts, path, rest)
        }
        Tag::Item(kind) => {
            let counts = count_item(bounds, counts, path, kind, bytes)?;
            step(alloc, bounds, depth - 1, counts, path, kind, rest)
        }
    }
}

/// The counts after the tag of an item, which began where `bytes` do.
fn count_item(
    bounds: &Bounds,
    counts: Counts,
    path: &Path,
    kind: ItemKind,
    bytes: &[u8],
) -> Result<Counts, Halt>
    ensures { IsExact (λ x. x) halt_cause result
        (at_field bytes.now (counted_item bounds.now.limits counts (above_of path.now) (is_memory_kind kind) (is_effect_kind kind))) }
{
    at_field(
        bytes,
        bounds.item_tag(counts, path, kind.is_memory(), kind.is_effect()),
    )
}

/// What stands after the tag of an item.
#[cycle(row)]
#[tactic(auto, unfolding(crate::specs::Reading::step_at))]
fn step<'a>(
    alloc: Global,
    bounds: &Bounds,
    depth: u8,
    counts: Counts,
    path: &Path,
    kind: ItemKind,
    bytes: &'a [u8],
) -> Result<(Tree, Counts, &'a [u8]), Halt>
    ensures { IsExact (λ x. (row_of x.0, x.1, x.2.now)) halt_cause result
        (step_at bounds.now (row_at bounds.now depth) counts (above_of path.now) kind bytes.now) }
{
    let (item, rest) = item_fields(bounds, path, kind, bytes)?;
    let (next, counts, rest) = boxed_row(alloc, bounds, depth, counts, &path.below(&item), rest)?;
    Ok((RowTree::Step { item, next }, counts, rest))
}

/// What stands after the tag of a test.
#[cycle(row)]
#[tactic(auto, unfolding(crate::specs::Reading::test_at))]
fn test<'a>(
    alloc: Global,
    bounds: &Bounds,
    depth: u8,
    counts: Counts,
    path: &Path,
    bytes: &'a [u8],
) -> Result<(Tree, Counts, &'a [u8]), Halt>
    ensures { IsExact (λ x. (row_of x.0, x.1, x.2.now)) halt_cause result
        (test_at bounds.now (row_at bounds.now depth) counts (above_of path.now) bytes.now) }
{
    let (on, rest) = operand(bounds, bytes)?;
    let (yes, counts, rest) = boxed_row(alloc, bounds, depth, counts, path, rest)?;
    let (no, counts, rest) = boxed_row(alloc, bounds, depth, counts, path, rest)?;
    Ok((RowTree::Test { on, yes, no }, counts, rest))
}

#[cycle(row)]
fn boxed_row<'a>(
    alloc: Global,
    bounds: &Bounds,
    depth: u8,
    counts: Counts,
    path: &Path,
    bytes: &'a [u8],
) -> Result<(Box<Tree>, Counts, &'a [u8]), Halt>
    ensures { IsExact (λ x. (row_of x.0.value, x.1, x.2.now)) halt_cause result (row_at bounds.now depth counts (above_of path.now) bytes.now) }
{
    let (tree, counts, rest) = row(alloc, bounds, depth, counts, path, bytes)?;
    let tree = Box::new(alloc, tree)?;
    Ok((tree, counts, rest))
}

#[tactic(auto, unfolding(crate::specs::Reading::fields_at))]
fn item_fields<'a>(
    bounds: &Bounds,
    path: &Path,
    kind: ItemKind,
    bytes: &'a [u8],
) -> Result<(Item, &'a [u8]), Halt>
    ensures read { IsExact (λ x. (x.0, x.1.now)) halt_cause result (fields_at bounds.now (above_of path.now) kind bytes.now) }
    ensures dest { IfOk result (λ x. IsDest most_registers (dest_of x.0)) }
{
    match kind {
        ItemKind::Bin => bin_fields(bounds, path, bytes),
        ItemKind::Copy => {
            let (dest, rest) = dest(bounds, path, bytes)?;
            let (from, rest) = operand(bounds, rest)?;
            Ok((Item::Copy { dest, from }, rest))
        }
        ItemKind::Load => load_fields(bounds, path, bytes),
        ItemKind::Store => store_fields(bounds, path, bytes),
        ItemKind::Print => {
            let (value, rest) = operand(bounds, bytes)?;
            Ok((Item::Print { value }, rest))
        }
        ItemKind::Read => {
            let (dest, rest) = dest(bounds, path, bytes)?;
            Ok((Item::Read { dest }, rest))
        }
        ItemKind::More => {
            let (dest, rest) = dest(bounds, path, bytes)?;
            Ok((Item::More { dest }, rest))
        }
    }
}

#[tactic(auto, unfolding(crate::specs::Reading::fields_at))]
fn bin_fields<'a>(bounds: &Bounds, path: &Path, bytes: &'a [u8]) -> Result<(Item, &'a [u8]), Halt>
    ensures read { IsExact (λ x. (x.0, x.1.now)) halt_cause result (fields_at bounds.now (above_of path.now) ItemKind.Bin bytes.now) }
    ensures dest { IfOk result (λ x. IsDest most_registers (dest_of x.0)) }
{
    let (op, rest) = operator(bytes)?;
    let (dest, rest) = dest(bounds, path, rest)?;
    let (left, rest) = operand(bounds, rest)?;
    let (right, rest) = operand(bounds, rest)?;
    let item = Item::Bin {
        op,
        dest,
        left,
        right,
    };
    Ok((item, rest))
}

#[tactic(auto, unfolding(crate::specs::Reading::fields_at))]
fn load_fields<'a>(bounds: &Bounds, path: &Path, bytes: &'a [u8]) -> Result<(Item, &'a [u8]), Halt>
    ensures read { IsExact (λ x. (x.0, x.1.now)) halt_cause result (fields_at bounds.now (above_of path.now) ItemKind.Load bytes.now) }
    ensures dest { IfOk result (λ x. IsDest most_registers (dest_of x.0)) }
{
    let (dest, rest) = dest(bounds, path, bytes)?;
    let (array, rest) = array(bounds, rest)?;
    let (index, rest) = operand(bounds, rest)?;
    Ok((Item::Load { dest, array, index }, rest))
}

#[tactic(auto, unfolding(crate::specs::Reading::fields_at))]
fn store_fields<'a>(bounds: &Bounds, path: &Path, bytes: &'a [u8]) -> Result<(Item, &'a [u8]), Halt>
    ensures read { IsExact (λ x. (x.0, x.1.now)) halt_cause result (fields_at bounds.now (above_of path.now) ItemKind.Store bytes.now) }
    ensures dest { IfOk result (λ x. IsDest most_registers (dest_of x.0)) }
{
    let (array, rest) = array(bounds, bytes)?;
    let (index, rest) = operand(bounds, rest)?;
    let (value, rest) = operand(bounds, rest)?;
    let item = Item::Store {
        array,
        index,
        value,
    };
    Ok((item, rest))
}

#[tactic(auto, unfolding(crate::specs::Reading::goto_at))]
fn goto<'a>(bounds: &Bounds, bytes: &'a [u8]) -> Result<(Tree, &'a [u8]), Halt>
    ensures { IsExact (λ x. (row_of x.0, x.1.now)) halt_cause result (goto_at bounds.now.rows bytes.now) }
{
    let (row, rest) = number(bytes)?;
    at_field(bytes, bounds.target(row))?;
    let leaf = Leaf::Goto { row };
    Ok((RowTree::Leaf { leaf }, rest))
}

#[tactic(auto, unfolding(crate::specs::Reading::trap_fields_at))]
fn trap(bytes: &[u8]) -> Result<(Tree, &[u8]), Halt>
    ensures { IsExact (λ x. (row_of x.0, x.1.now)) halt_cause result (trap_fields_at bytes.now) }
{
    let (kind, rest) = trap_kind(bytes)?;
    let (line, rest) = number(rest)?;
    let leaf = Leaf::Trap { kind, line };
    Ok((RowTree::Leaf { leaf }, rest))
}
