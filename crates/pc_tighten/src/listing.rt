//! The rows that are reachable, in the order in which they are first reached.
ghost use Rattle.std.specs.Prelude.{◌≡◌, [], None, replicate, IfOk, OnOk};
ghost use Rattle.pc_word.specs.Row.{leaves_of};
ghost use Rattle.pc_machine.specs.MachineCode.{row_of};
ghost use Rattle.pc_tighten.specs.models.Drafts.{draft_row, draft_rows};
ghost use Rattle.pc_tighten.specs.models.Listing.{listed_of, with_listed, with_target, with_targets, AreListed};

use crate::draft::Draft;
use pc_machine::{Leaf, Tree};
use pc_word::RowTree;
use std::alloc::{AllocError, Global};

/// Rows in the order in which they were listed, and the place of each of them there.
#[derive(Drop)]
pub(crate) struct Listing {
    pub(crate) places: Vec<Option<usize>>,
    pub(crate) order: Vec<u32>,
}

/// Appends a row to the others if it is not there.
fn list_row(listing: &mut Listing, row: u32) -> Result<(), AllocError>
    ensures { OnOk result (listed_of listing.new ≡ with_listed row (listed_of listing.old)) }
{
    let at = row as usize;
    if let Some(None) = listing.places.get(at) {
        let place = listing.order.len();
        listing.order.push(row)?;
        listing.places[at] = Some(place);
    }
    Ok(())
}

/// Appends the row that a leaf leads to to the others if it is not there.
fn list_target(listing: &mut Listing, leaf: Leaf) -> Result<(), AllocError>
    ensures { OnOk result (listed_of listing.new ≡ with_target leaf (listed_of listing.old)) }
{
    match leaf.target() {
        Some(row) => list_row(listing, row),
        None => Ok(()),
    }
}

/// Appends the rows that a tree leads to to the others.
#[tactic(auto, using(crate::proofs::Listed::targets))]
fn list_tree(listing: &mut Listing, tree: &Tree) -> Result<(), AllocError>
    ensures { OnOk result (listed_of listing.new ≡ with_targets (leaves_of (row_of tree.now)) (listed_of listing.old)) }
{
    match tree {
        RowTree::Step { next, .. } => list_tree(listing, next),
        RowTree::Test { yes, no, .. } => {
            list_tree(listing, yes)?;
            list_tree(listing, no)
        }
        RowTree::Leaf { leaf } => list_target(listing, *leaf),
    }
}

/// Appends the rows that a row leads to to the others.
#[tactic(auto, using(crate::proofs::Drafting::leaves_laws))]
fn list_targets(listing: &mut Listing, draft: &Draft) -> Result<(), AllocError>
    ensures { OnOk result (listed_of listing.new ≡ with_targets (leaves_of (draft_row draft.now)) (listed_of listing.old)) }
{
    list_tree(listing, &draft.rest)
}

/// The rows that are reachable, listed.
pub(crate) fn reachable(alloc: Global, rows: &[Draft]) -> Result<Listing, AllocError>
    ensures { IfOk result (λ it. AreListed (draft_rows rows.now) (listed_of it)) }
{
    let mut listing = Listing {
        places: no_places(alloc, rows.len())?,
        order: Vec::new(alloc),
    };
    list_row(&mut listing, 0)?;
    let mut done = 0;
    while done < listing.order.len() {
        let row = listing.order[done] as usize;
        list_targets(&mut listing, &rows[row])?;
        done += 1;
    }
    Ok(listing)
}

/// So many rows without a place.
fn no_places(alloc: Global, count: usize) -> Result<Vec<Option<usize>>, AllocError>
    ensures { IfOk result (λ places. places.items ≡ replicate count None) }
{
    vec![in alloc; None; count]
}
