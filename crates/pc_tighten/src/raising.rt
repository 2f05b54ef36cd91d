//! Items go up, as many rows as they can.
ghost use Rattle.std.specs.Prelude.{◌≡◌, ◌≢◌, ◌<◌, ℕ, Option, Some, length, slice_get, All, IfOk, OnOk, IfSome, MatchOption};
ghost use Rattle.pc_tighten.specs.declared.draft.Draft.{Draft as DraftOf};
ghost use Rattle.pc_tighten.specs.models.Drafts.{IsSplit, draft_rows};
ghost use Rattle.pc_tighten.specs.models.Parents.{StandAbove, parent_of};
ghost use Rattle.pc_tighten.specs.models.Raising.{Raises, MayRise, MovesUp, IsSettled, HasRaised};
ghost use Rattle.pc_tighten.specs.models.Raising.{AreSettledIf, IsAmongFirst, AreWithin, IsRaised};

use crate::draft::{Draft, either, first_free, is_held, put};
use crate::parents::Parents;
use pc_word::Limits;
use std::alloc::{AllocError, Global};

/// An item that may go to the row above its row: that row, and the place of the item.
#[derive(Clone, Copy)]
struct Rise {
    above: usize,
    at: usize,
}

/// Brings the item at a place of the row `under` to the end of the path of the row `above`.
fn move_up(
    alloc: Global,
    rows: &mut Vec<Draft>,
    above: usize,
    under: usize,
    at: usize,
) -> Result<(), AllocError>
    requires above { above < length rows.old.items }
    requires under { under < length rows.old.items }
    requires apart { above ≢ under }
    requires there { (draft : DraftOf) → slice_get rows.old.items under ≡ Some draft → at < length draft.items.items }
    ensures { OnOk result (MovesUp rows.old.items rows.new.items above under at) }
{
    let item = rows[under].items[at];
    put(alloc, &mut rows[above], under, item)?;
    rows[under].items.remove(at);
    Ok(())
}

/// Brings an item to the row above its row.
fn lift(
    alloc: Global,
    limits: Limits,
    parents: &Parents,
    rows: &mut Vec<Draft>,
    under: usize,
    rise: Rise,
) -> Result<(), AllocError>
    requires stand { StandAbove (draft_rows rows.old.items) parents.now }
    requires may { MayRise limits parents.now rows.old.items rise.above under rise.at }
    ensures raises { OnOk result (Raises limits parents.now.listing.places.items 1 rows.old.items rows.new.items) }
    ensures count { OnOk result (length rows.new.items ≡ length rows.old.items) }
    ensures there { rise.above < length rows.old.items }
{
    move_up(alloc, rows, rise.above, under, rise.at)
}

/// Brings an item to the row above its row, and from there up as long as it may.
///
/// Where the row to which it came has a test, the item that is tried there is another one, which was tried
/// before and stays.
fn raise(
    alloc: Global,
    limits: Limits,
    parents: &Parents,
    rows: &mut Vec<Draft>,
    under: usize,
    first: Rise,
) -> Result<(), AllocError>
    requires stand { StandAbove (draft_rows rows.old.items) parents.now }
    requires may { MayRise limits parents.now rows.old.items first.above under first.at }
    ensures raises { OnOk result (Raises limits parents.now.listing.places.items 1 rows.old.items rows.new.items) }
    ensures count { OnOk result (length rows.new.items ≡ length rows.old.items) }
{
    let mut row = first.above;
    lift(alloc, limits, parents, rows, under, first)?;
    while let Some(next) = last_rise(limits, parents, rows, row) {
        let above = next.above;
        lift(alloc, limits, parents, rows, row, next)?;
        row = above;
    }
    Ok(())
}

/// The row above a row.
fn row_above(parents: &Parents, rows: &[Draft], row: usize) -> Option<usize>
    requires { StandAbove (draft_rows rows.now) parents.now }
    ensures value { result ≡ parent_of parents.now row }
    ensures within { IfSome result (λ above. above < length rows.now) }
{
    // The length is asked for by the clauses alone.
    let _count = rows.len();
    parents.parent(row)
}

/// The last item of a row before its first test, if it may go to the row above.
fn last_rise(limits: Limits, parents: &Parents, rows: &[Draft], row: usize) -> Option<Rise>
    requires stand { StandAbove (draft_rows rows.now) parents.now }
    requires there { row < length rows.now }
    ensures { IfSome result (λ rise. MayRise limits parents.now rows.now rise.above row rise.at) }
{
    let Some(above) = row_above(parents, rows, row) else {
        return None;
    };
    let under = &rows[row];
    if under.items.is_empty() {
        return None;
    }
    let at = under.items.len() - 1;
    let item = under.items[at];
    if is_held(limits, &rows[above], row, under, at, item) {
        return None;
    }
    Some(Rise { above, at })
}

/// The first item of a row before its first test that may go to the row above.
fn first_rise(limits: Limits, parents: &Parents, rows: &[Draft], row: usize) -> Option<Rise>
    requires stand { StandAbove (draft_rows rows.now) parents.now }
    requires there { row < length rows.now }
    ensures { MatchOption result (IsSettled limits parents.now rows.now row) (λ rise. MayRise limits parents.now rows.now rise.above row rise.at) }
{
    let Some(above) = row_above(parents, rows, row) else {
        return None;
    };
    match first_free(limits, &rows[above], row, &rows[row]) {
        Some(at) => Some(Rise { above, at }),
        None => None,
    }
}

/// Brings up what may go up from a row; whether there was something.
fn raise_row(
    alloc: Global,
    limits: Limits,
    parents: &Parents,
    rows: &mut Vec<Draft>,
    row: usize,
) -> Result<bool, AllocError>
    requires stand { StandAbove (draft_rows rows.old.items) parents.now }
    requires there { row < length rows.old.items }
    ensures raised { IfOk result (λ moved. HasRaised limits parents.now rows.old.items rows.new.items moved) }
    ensures settled { OnOk result (IsSettled limits parents.now rows.new.items row) }
{
    let mut moved = false;
    while let Some(first) = first_rise(limits, parents, rows, row) {
        raise(alloc, limits, parents, rows, row, first)?;
        moved = true;
    }
    Ok(moved)
}

/// Brings up what may go up from each reachable row; whether there was something.
fn raise_rows(
    alloc: Global,
    limits: Limits,
    parents: &Parents,
    rows: &mut Vec<Draft>,
) -> Result<bool, AllocError>
    requires stand { StandAbove (draft_rows rows.old.items) parents.now }
    requires within { AreWithin parents.now.listing.order.items (length rows.old.items) }
    ensures raised { IfOk result (λ moved. HasRaised limits parents.now rows.old.items rows.new.items moved) }
    ensures settled { IfOk result (λ moved. AreSettledIf limits parents.now (IsAmongFirst parents.now.listing.order.items (length parents.now.listing.order.items)) rows.new.items moved) }
{
    let mut moved = false;
    for row in parents.rows() {
        let some = raise_row(alloc, limits, parents, rows, *row as usize)?;
        moved = either(moved, some);
    }
    Ok(moved)
}

/// Brings up what may go up, until nothing may.
///
/// Rows come after the rows that alone lead to them, and an item that has come to a row is brought on as
/// far as it may go. What comes to a row only adds reasons to stay there, and what leaves a row was brought
/// up before the rows below it were tried: so a second round finds nothing to do, though no clause says so.
/// An item is tried against one row in constant time, since a row has few items; a round takes time in
/// proportion to the rows and to the rows that items pass.
pub(crate) fn raise_all(
    alloc: Global,
    limits: Limits,
    rows: &mut Vec<Draft>,
) -> Result<(), AllocError>
    requires { All IsSplit rows.old.items }
    ensures { OnOk result (IsRaised limits (draft_rows rows.old.items) (draft_rows rows.new.items)) }
{
    let parents = Parents::new(alloc, rows)?;
    while raise_rows(alloc, limits, &parents, rows)? {}
    Ok(())
}
