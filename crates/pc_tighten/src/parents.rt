//! The row above each row: the one that alone leads to it, by one leaf.
ghost use Rattle.std.specs.Prelude.{◌≡◌, Some, length, replicate, slice_get, IfOk};
ghost use Rattle.pc_word.specs.Row.{leaves_of};
ghost use Rattle.pc_machine.specs.MachineCode.{row_of};
ghost use Rattle.pc_tighten.specs.declared.parents.Naming.TheVariants.{Never, Once};
ghost use Rattle.pc_tighten.specs.models.Drafts.{draft_row, draft_rows};
ghost use Rattle.pc_tighten.specs.models.Parents.{named_again, with_name, with_names, with_all_names, if_before};

use crate::draft::Draft;
use crate::listing::{Listing, reachable};
use pc_machine::{Leaf, Tree};
use pc_word::RowTree;
use std::alloc::{AllocError, Global};

/// How often leaves lead to a row.
#[derive(Clone, Copy, Drop)]
pub(crate) enum Naming {
    Never,
    /// One leaf does, which is one of this row.
    Once { row: usize },
    Often,
}

/// How often leaves lead to each row, and the rows that are reachable.
#[derive(Drop)]
pub(crate) struct Parents {
    names: Vec<Naming>,
    listing: Listing,
}

impl Parents {
    ghost use Rattle.pc_tighten.specs.models.Drafts.{draft_row, draft_rows};
    ghost use Rattle.pc_tighten.specs.models.Parents.{AreParents, parent_of, parent_by};

    /// Of these rows.
    pub(crate) fn new(alloc: Global, rows: &[Draft]) -> Result<Parents, AllocError>
        ensures { IfOk result (λ it. AreParents (draft_rows rows.now) it) }
    {
        let names = names(alloc, rows)?;
        let listing = reachable(alloc, rows)?;
        Ok(Parents { names, listing })
    }

    /// The row above a row: the one that alone leads to it, by one leaf, if it is listed before it.
    pub(crate) fn parent(&self, row: usize) -> Option<usize>
        ensures { result ≡ parent_of self.now row }
    {
        match self.names.get(row) {
            Some(Naming::Once { row: above }) => self.unless_entry(row, *above),
            Some(Naming::Never) => None,
            Some(Naming::Often) => None,
            None => None,
        }
    }

    /// This row, if the other is not row 0 nor itself, and is listed after it.
    fn unless_entry(&self, row: usize, above: usize) -> Option<usize>
        ensures { result ≡ parent_by self.now.listing.places.items row (Some (Once above)) }
    {
        if row == 0 {
            return None;
        }
        if row == above {
            return None;
        }
        if_before(&self.listing.places, above, row)
    }

    /// The reachable rows, in the order in which they are first reached.
    pub(crate) fn rows(&self) -> &[u32]
        ensures { result.now ≡ self.now.listing.order.items }
    {
        self.listing.order.as_slice()
    }
}

/// The row `above`, if it is listed before a row.
fn if_before(places: &[Option<usize>], above: usize, row: usize) -> Option<usize>
    ensures { result ≡ if_before above (slice_get places.now above) (slice_get places.now row) }
{
    let Some(Some(place)) = places.get(above) else {
        return None;
    };
    let Some(Some(other)) = places.get(row) else {
        return None;
    };
    if *place < *other { Some(above) } else { None }
}

/// Named once more, by a leaf of this row.
fn named_again(from: usize, naming: Naming) -> Naming
    ensures { result ≡ named_again from naming }
{
    match naming {
        Naming::Never => Naming::Once { row: from },
        Naming::Once { .. } => Naming::Often,
        Naming::Often => Naming::Often,
    }
}

/// Names the row to which a leaf of the row `from` leads.
fn name_target(names: &mut Vec<Naming>, from: usize, leaf: Leaf)
    ensures { names.new.items ≡ with_name from leaf names.old.items }
{
    let Some(row) = leaf.target() else {
        return;
    };
    let at = row as usize;
    if at < names.len() {
        let naming = names[at];
        names[at] = named_again(from, naming);
    }
}

/// Names the rows to which a tree of the row `from` leads.
#[tactic(auto, using(crate::proofs::Named::names))]
fn name_tree(names: &mut Vec<Naming>, from: usize, tree: &Tree)
    ensures { names.new.items ≡ with_names from (leaves_of (row_of tree.now)) names.old.items }
{
    match tree {
        RowTree::Step { next, .. } => name_tree(names, from, next),
        RowTree::Test { yes, no, .. } => {
            name_tree(names, from, yes);
            name_tree(names, from, no);
        }
        RowTree::Leaf { leaf } => name_target(names, from, *leaf),
    }
}

/// Names the rows to which the row `from` leads.
#[tactic(auto, using(crate::proofs::Drafting::leaves_laws))]
fn name_targets(names: &mut Vec<Naming>, from: usize, draft: &Draft)
    ensures { names.new.items ≡ with_names from (leaves_of (draft_row draft.now)) names.old.items }
{
    name_tree(names, from, &draft.rest);
}

/// How often leaves lead to each row.
fn names(alloc: Global, rows: &[Draft]) -> Result<Vec<Naming>, AllocError>
    ensures { IfOk result (λ names. names.items ≡ with_all_names 0 (draft_rows rows.now) (replicate (length rows.now) Never)) }
{
    let mut names = no_names(alloc, rows.len())?;
    for from in 0..rows.len() {
        name_targets(&mut names, from, &rows[from]);
    }
    Ok(names)
}

/// So many rows to which no leaf leads.
fn no_names(alloc: Global, count: usize) -> Result<Vec<Naming>, AllocError>
    ensures { IfOk result (λ names. names.items ≡ replicate count Never) }
{
    vec![in alloc; Naming::Never; count]
}
