//! Rows that are a goto alone go, and what led to them is sent on.
ghost use Rattle.std.specs.Prelude.{◌≡◌, IfOk, OnOk};
ghost use Rattle.pc_machine.specs.MachineCode.{row_of, rows_of};
ghost use Rattle.pc_tighten.specs.Removing.{placed_leaf, placed_row};
ghost use Rattle.pc_tighten.specs.models.Gotos.{goto_of, gotos_of, goto_target, sent_on, new_place, AreRanks, ArePlacesFrom, rows_left, HasRemoved, AreRemoved};

use pc_machine::{Leaf, Tree};
use pc_word::RowTree;
use std::alloc::{AllocError, Global};

/// The place of each row once rows have gone, and how many go.
#[derive(Drop)]
struct Places {
    places: Vec<u32>,
    gone: u32,
}

/// Where a row leads that is a goto alone.
fn goto_of(tree: &Tree) -> Option<u32>
    ensures { result ≡ goto_of (row_of tree.now) }
{
    match tree {
        RowTree::Leaf { leaf } => leaf.target(),
        RowTree::Step { .. } | RowTree::Test { .. } => None,
    }
}

/// Where each row leads that is a goto alone.
fn gotos_of(alloc: Global, rows: &[Tree]) -> Result<Vec<Option<u32>>, AllocError>
    ensures { IfOk result (λ gotos. gotos.items ≡ gotos_of (rows_of rows.now)) }
{
    let mut gotos = Vec::new(alloc);
    for row in rows {
        gotos.push(goto_of(row))?;
    }
    Ok(gotos)
}

/// Where a row leads, if it is a goto alone to another row, and not row 0.
fn goto_target(gotos: &[Option<u32>], row: usize) -> Option<u32>
    ensures { result ≡ goto_target gotos.now row }
{
    let Some(Some(to)) = gotos.get(row) else {
        return None;
    };
    if row == 0 {
        return None;
    }
    if *to as usize == row {
        return None;
    }
    Some(*to)
}

/// Where what leads to a row is sent on, if the row goes in this round: further down, or to a row that
/// does not lead on.
fn sent_on(gotos: &[Option<u32>], row: usize) -> Option<u32>
    ensures { result ≡ sent_on gotos.now row }
{
    let to = goto_target(gotos, row)?;
    if row < to as usize {
        return Some(to);
    }
    match goto_target(gotos, to as usize) {
        Some(_) => None,
        None => Some(to),
    }
}

/// How many rows above each row stay, and how many go in all.
///
/// The number of a row is a `u32`: where there are more rows, this is answered as memory that ran out.
fn ranks(alloc: Global, gotos: &[Option<u32>]) -> Result<Places, AllocError>
    ensures { IfOk result (λ it. AreRanks gotos.now it) }
{
    let Ok(count) = u32::try_from(gotos.len()) else {
        return Err(AllocError);
    };
    let mut places = Vec::new(alloc);
    let mut gone = 0;
    for row in 0..count {
        places.push(row - gone)?;
        if sent_on(gotos, row as usize).is_some() {
            gone += 1;
        }
    }
    Ok(Places { places, gone })
}

/// The place of a row once rows have gone.
fn new_place(it: &Places, row: u32) -> u32
    ensures { result ≡ new_place it.now row }
{
    match it.places.get(row as usize) {
        Some(place) => *place,
        None => row.saturating_sub(it.gone),
    }
}

/// Gives each row that goes the place of the row to which it leads.
fn send_places_on(gotos: &[Option<u32>], it: &mut Places)
    requires { AreRanks gotos.now it.old }
    ensures { ArePlacesFrom gotos.now it.new 0 }
{
    let mut row = it.places.len();
    while row > 0 {
        row -= 1;
        match sent_on(gotos, row) {
            Some(to) => {
                let place = new_place(it, to);
                it.places[row] = place;
            }
            None => {}
        }
    }
}

/// The place of each row once those that go in this round have gone.
fn places_after(alloc: Global, gotos: &[Option<u32>]) -> Result<Places, AllocError>
    ensures { IfOk result (λ it. ArePlacesFrom gotos.now it 0) }
{
    let mut it = ranks(alloc, gotos)?;
    send_places_on(gotos, &mut it);
    Ok(it)
}

/// A leaf that leads to the place of its row.
fn placed_leaf(it: &Places, leaf: Leaf) -> Leaf
    ensures { result ≡ placed_leaf (new_place it.now) leaf }
{
    match leaf {
        Leaf::Goto { row } => Leaf::Goto {
            row: new_place(it, row),
        },
        Leaf::Stop | Leaf::Trap { .. } => leaf,
    }
}

/// Sends the leaves of a tree to the places of rows.
fn send(tree: &mut Tree, it: &Places)
    ensures { row_of tree.new ≡ placed_row (new_place it.now) (row_of tree.old) }
{
    match tree {
        RowTree::Step { next, .. } => send(next, it),
        RowTree::Test { yes, no, .. } => {
            send(yes, it);
            send(no, it);
        }
        RowTree::Leaf { leaf } => *leaf = placed_leaf(it, *leaf),
    }
}

/// The rows that stay, whose leaves lead to the places of rows.
fn rows_left(
    alloc: Global,
    rows: &mut Vec<Tree>,
    gotos: &[Option<u32>],
    it: &Places,
) -> Result<Vec<Tree>, AllocError>
    ensures { IfOk result (λ left. rows_of left.items ≡ rows_left gotos.now it.now (rows_of rows.old.items)) }
{
    let mut left = Vec::new(alloc);
    while let Some(mut tree) = rows.pop() {
        if sent_on(gotos, rows.len()).is_none() {
            send(&mut tree, it);
            left.push(tree)?;
        }
    }
    left.reverse();
    Ok(left)
}

/// Takes out the rows that go in a round; whether there were some.
fn remove_round(alloc: Global, rows: &mut Vec<Tree>) -> Result<bool, AllocError>
    ensures { IfOk result (λ some. HasRemoved (rows_of rows.old.items) (rows_of rows.new.items) some) }
{
    let gotos = gotos_of(alloc, rows)?;
    let places = places_after(alloc, &gotos)?;
    if places.gone == 0 {
        return Ok(false);
    }
    *rows = rows_left(alloc, rows, &gotos, &places)?;
    Ok(true)
}

/// Takes out rows that are a goto alone to another row, until there is none but row 0.
///
/// In one round all go that lead further down, and those that lead further up to a row that is not such a
/// goto. A round takes time in proportion to the rows, and each but the last takes out a row.
pub(crate) fn remove_all(alloc: Global, rows: &mut Vec<Tree>) -> Result<(), AllocError>
    ensures { OnOk result (AreRemoved (rows_of rows.old.items) (rows_of rows.new.items)) }
{
    while remove_round(alloc, rows)? {}
    Ok(())
}
