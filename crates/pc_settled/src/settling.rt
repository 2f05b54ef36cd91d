//! Whether rows are settled.
ghost use Rattle.std.specs.Prelude.{◌≡◌, ◌⊎◌, true, IfOk, IfSome};
ghost use Rattle.pc_machine.specs.MachineCode.{row_of, rows_of};
ghost use Rattle.pc_settled.specs.Settled.{is_row_of_copies, IsDue, IsItemDue, AreItemsDue, Settled};
ghost use Rattle.pc_settled.specs.models.Holding.{IsFound, HoldsAtEntry, GivesWeb, LeafHolds, HoldBoth, HeldTogether};

use crate::liveness::{Liveness, liveness_of};
use crate::nodes::{NodeSets, node_below, node_sets, row_number};
use crate::points::{Gathering, Point, count_leaves, gathered, points_of};
use pc_machine::{Leaf, Tree};
use pc_word::{Item, Operand, OutOfMemory, RowTree};
use std::alloc::Global;

/// What is found of rows.
#[derive(Drop)]
struct Found {
    live: Liveness,
    sets: NodeSets,
    /// At which points each web is held.
    gathering: Gathering,
    /// What each point is.
    points: Vec<Point>,
}

/// Two webs, each by its least node.
#[derive(Clone, Copy, Debug)]
struct Pair {
    one: u32,
    other: u32,
}

/// Which of two webs are held at the end of a path, as far as the items above tell.
#[derive(Clone, Copy, Debug)]
struct HeldAbove {
    one: bool,
    other: bool,
}

/// Whether a node is of a row, which needs it, and its web is this one.
#[tactic(auto, using(crate::proofs::Holding::node_holds))]
fn is_of_web(found: &Found, row: u32, node: u32, web: u32) -> bool
    ensures { result ≡ true → HoldsAtEntry found.now row web }
{
    let Some(home) = found.live.home(node) else {
        return false;
    };
    if home.row != row {
        return false;
    }
    if !found.live.of_row(row).contains(home.register) {
        return false;
    }
    found.sets.least(node) == web
}

/// Whether a row needs a value of a web.
fn entry_holds(found: &Found, row: u32, web: u32) -> bool
    ensures { result ≡ true → HoldsAtEntry found.now row web }
{
    let first = found.live.node(row, 0);
    for rank in 0..found.live.of_row(row).count() {
        if is_of_web(found, row, first.wrapping_add(rank), web) {
            return true;
        }
    }
    false
}

/// Whether an item gives a value of a web to a row, past what is left of its own row below it.
#[tactic(auto, using(crate::proofs::Holding::item_gives))]
fn gives(found: &Found, item: Item, next: &Tree, web: u32) -> bool
    ensures { result ≡ true → GivesWeb found.now item (row_of next.now) web }
{
    let Some(dest) = item.dest() else {
        return false;
    };
    let Some(node) = node_below(&found.live, next, dest) else {
        return false;
    };
    found.sets.least(node) == web
}

/// Whether a web is held by an item above, or by this one.
fn is_held(found: &Found, item: Item, next: &Tree, web: u32, above: bool) -> bool
    ensures { result ≡ true → (above ≡ true) ⊎ GivesWeb found.now item (row_of next.now) web }
{
    if above {
        return true;
    }
    gives(found, item, next, web)
}

/// Whether a web is held by an item above, or by the row to which a leaf leads.
#[tactic(auto, using(crate::proofs::Holding::leaf_needs))]
fn leaf_holds(found: &Found, leaf: Leaf, web: u32, above: bool) -> bool
    ensures { result ≡ true → (above ≡ true) ⊎ LeafHolds found.now leaf web }
{
    if above {
        return true;
    }
    match leaf.target() {
        Some(row) => entry_holds(found, row, web),
        None => false,
    }
}

/// Whether two webs are held at the end of the path of a row, or of what is left of one, to the leaf with this number,
/// where items above hold some.
#[tactic(auto, using(crate::proofs::Holding::both_laws))]
fn hold_at_end(found: &Found, tree: &Tree, leaf_number: u32, pair: Pair, above: HeldAbove) -> bool
    ensures { result ≡ true → HoldBoth found.now (row_of tree.now) pair above }
{
    match tree {
        RowTree::Step { item, next } => {
            let one = is_held(found, *item, next, pair.one, above.one);
            let other = is_held(found, *item, next, pair.other, above.other);
            hold_at_end(found, next, leaf_number, pair, HeldAbove { one, other })
        }
        RowTree::Test { yes, no, .. } => {
            let count = count_leaves(yes);
            if leaf_number < count {
                return hold_at_end(found, yes, leaf_number, pair, above);
            }
            hold_at_end(found, no, leaf_number - count, pair, above)
        }
        RowTree::Leaf { leaf } => {
            if !leaf_holds(found, *leaf, pair.one, above.one) {
                return false;
            }
            leaf_holds(found, *leaf, pair.other, above.other)
        }
    }
}

/// Whether two webs are held at the beginning of a row.
fn hold_at_entry(found: &Found, row: u32, pair: Pair) -> bool
    ensures one { result ≡ true → HoldsAtEntry found.now row pair.one }
    ensures other { result ≡ true → HoldsAtEntry found.now row pair.other }
{
    if !entry_holds(found, row, pair.one) {
        return false;
    }
    entry_holds(found, row, pair.other)
}

/// Whether two webs are held at a point.
#[tactic(auto, using(crate::proofs::Holding::place_laws))]
fn hold_at(found: &Found, rows: &[Tree], point: Point, pair: Pair) -> bool
    ensures { result ≡ true → HeldTogether (rows_of rows.now) found.now pair }
{
    let Some(leaf_number) = point.leaf else {
        return hold_at_entry(found, point.row, pair);
    };
    let at = point.row as usize;
    if at >= rows.len() {
        return false;
    }
    let above = HeldAbove {
        one: false,
        other: false,
    };
    hold_at_end(found, &rows[at], leaf_number, pair, above)
}

/// Whether two webs are held at one point.
fn meet(found: &Found, rows: &[Tree], pair: Pair) -> bool
    ensures { result ≡ true → HeldTogether (rows_of rows.now) found.now pair }
{
    let Some(number) = found.gathering.common(pair.one, pair.other) else {
        return false;
    };
    let Some(point) = found.points.get(number as usize).copied() else {
        return false;
    };
    hold_at(found, rows, point, pair)
}

/// Whether a copy of a register into another can't be spared.
#[tactic(auto, using(crate::proofs::Holding::copy_is_due))]
fn is_due(found: &Found, rows: &[Tree], row: u32, dest: u32, from: u32, next: &Tree) -> bool
    ensures { result ≡ true → IsFound (rows_of rows.now) found.now → IsDue (rows_of rows.now) row dest from (row_of next.now) }
{
    if dest == from {
        return false;
    }
    let Some(made) = node_below(&found.live, next, dest) else {
        return false;
    };
    let Some(source) = found.live.find(row, from) else {
        return false;
    };
    let one = found.sets.least(made);
    let other = found.sets.least(source);
    meet(found, rows, Pair { one, other })
}

/// Whether an item of a row of copies can't be spared, if it copies a register.
fn is_item_due(found: &Found, rows: &[Tree], row: u32, item: Item, next: &Tree) -> bool
    ensures { result ≡ true → IsFound (rows_of rows.now) found.now → IsItemDue (rows_of rows.now) row item (row_of next.now) }
{
    match item {
        Item::Copy { dest, from } => match from {
            Operand::Name(from) => is_due(found, rows, row, dest, from, next),
            Operand::Lit(_) => true,
        },
        Item::Bin { .. } | Item::Load { .. } | Item::Store { .. } => true,
        Item::Print { .. } | Item::Read { .. } | Item::More { .. } => true,
    }
}

/// Whether no item of a row of copies, or of what is left of one, can be spared that copies a register.
fn are_items_due(found: &Found, rows: &[Tree], row: u32, tree: &Tree) -> bool
    ensures { result ≡ true → IsFound (rows_of rows.now) found.now → AreItemsDue (rows_of rows.now) row (row_of tree.now) }
{
    match tree {
        RowTree::Step { item, next } => {
            if !is_item_due(found, rows, row, *item, next) {
                return false;
            }
            are_items_due(found, rows, row, next)
        }
        RowTree::Test { .. } | RowTree::Leaf { .. } => true,
    }
}

/// Whether a row, or what is left of one, has no test, no item but copies, and a leaf that leads to a row.
fn is_row_of_copies(tree: &Tree) -> bool
    ensures { result ≡ is_row_of_copies (row_of tree.now) }
{
    match tree {
        RowTree::Step { item, next } => match item {
            Item::Copy { .. } => is_row_of_copies(next),
            _ => false,
        },
        RowTree::Test { .. } => false,
        RowTree::Leaf { leaf } => leaf.target().is_some(),
    }
}

/// Whether a row is settled.
fn is_row_settled(found: &Found, rows: &[Tree], row: u32, tree: &Tree) -> bool
    ensures { result ≡ true → IsFound (rows_of rows.now) found.now → is_row_of_copies (row_of tree.now) ≡ true → AreItemsDue (rows_of rows.now) row (row_of tree.now) }
{
    if !is_row_of_copies(tree) {
        return true;
    }
    are_items_due(found, rows, row, tree)
}

/// Whether each row is settled.
fn are_settled(found: &Found, rows: &[Tree]) -> bool
    ensures { result ≡ true → IsFound (rows_of rows.now) found.now → Settled (rows_of rows.now) }
{
    for at in 0..rows.len() {
        let Some(row) = row_number(at) else {
            return false;
        };
        if !is_row_settled(found, rows, row, &rows[at]) {
            return false;
        }
    }
    true
}

/// What is found of rows.
fn found_of(alloc: Global, rows: &[Tree]) -> Result<Found, OutOfMemory>
    ensures { IfOk result (λ found. IsFound (rows_of rows.now) found) }
{
    let live = liveness_of(alloc, rows)?;
    let sets = node_sets(alloc, &live, rows)?;
    let gathering = gathered(alloc, &live, &sets, rows)?;
    let points = points_of(alloc, rows)?;
    Ok(Found {
        live,
        sets,
        gathering,
        points,
    })
}

/// Whether rows are settled: for each copy of a register into another in a row of copies there is a place at which the
/// webs of both are held. Where it answers `false` they may be settled all the same.
///
/// It takes time in proportion to the rows' nodes, times the rounds until it is known what they need; and for each copy in
/// a row of copies a search for the points of one web among those of the other. `Memory` is the only error.
pub fn is_settled(alloc: Global, rows: &[Tree]) -> Result<bool, OutOfMemory>
    ensures { IfOk result (λ settled. settled ≡ true → Settled (rows_of rows.now)) }
{
    let found = found_of(alloc, rows)?;
    Ok(are_settled(&found, rows))
}
