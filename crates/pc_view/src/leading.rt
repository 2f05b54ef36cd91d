//! Which rows lead to each row.
ghost use Rattle.std.specs.Prelude.{◌≡◌, ◌<◌, ◌^◌, ℕ, [], length, All, IfOk, OnOk, slice_get};
ghost use Rattle.std.specs.List.{AllByRecursion};
ghost use Rattle.std.specs.Option.{option_map};
ghost use Rattle.pc_word.specs.Row.{leaves_of};
ghost use Rattle.pc_machine.specs.MachineCode.{is_goto, row_of, rows_of};
ghost use Rattle.pc_machine.specs.WellFormed.{IsLeaf};
ghost use Rattle.pc_view.specs.Leading.{leads_to};
ghost use Rattle.pc_view.specs.models.Lists.{noted, noted_where, AreLists};

use pc_machine::{Leaf, Tree};
use pc_word::{RowTree, Seq};
use std::alloc::{AllocError, Global};

/// Numbers of rows, which rise.
pub(crate) type RowNumbers = Seq<u32>;

/// For each row the numbers of those that lead to it.
pub(crate) fn leading_rows(alloc: Global, rows: &[Tree]) -> Result<Vec<RowNumbers>, AllocError>
    requires few { length rows.now < 2 ^ 32 }
    requires leaves { All (λ tree. AllByRecursion (IsLeaf (length rows.now)) (leaves_of (row_of tree))) rows.now }
    ensures { IfOk result (λ lists. AreLists (length rows.now) (rows_of rows.now) lists.items) }
{
    let mut lists = no_numbers(alloc, rows.len())?;
    note_rows(rows, lists.as_mut_slice())?;
    Ok(lists)
}

/// So many empty lists.
fn no_numbers(alloc: Global, count: usize) -> Result<Vec<RowNumbers>, AllocError>
    ensures { IfOk result (λ lists. AreLists count [] lists.items) }
{
    let mut lists = Vec::new(alloc);
    for _i in 0..count {
        lists.push(Seq::new(alloc))?;
    }
    Ok(lists)
}

/// Notes the number of each row at each row that a leaf of its tree leads to.
fn note_rows(rows: &[Tree], lists: &mut [RowNumbers]) -> Result<(), AllocError>
    requires few { length rows.now < 2 ^ 32 }
    requires leaves { All (λ tree. AllByRecursion (IsLeaf (length rows.now)) (leaves_of (row_of tree))) rows.now }
    requires empty { AreLists (length rows.now) [] lists.old }
    ensures { OnOk result (AreLists (length rows.now) (rows_of rows.now) lists.new) }
{
    for (number, row) in rows.iter().enumerate() {
        note_leaves(row, number as u32, lists)?;
    }
    Ok(())
}

/// Notes the number of a row at each row that a leaf of its tree leads to.
fn note_leaves(row: &Tree, number: u32, lists: &mut [RowNumbers]) -> Result<(), AllocError>
    requires { AllByRecursion (IsLeaf (length lists.old)) (leaves_of (row_of row.now)) }
    ensures { OnOk result ((target : ℕ) → slice_get lists.new target
        ≡ option_map (noted_where (leads_to target (row_of row.now)) number) (slice_get lists.old target)) }
{
    match row {
        RowTree::Step { next, .. } => note_leaves(next, number, lists),
        RowTree::Test { yes, no, .. } => {
            note_leaves(yes, number, lists)?;
            note_leaves(no, number, lists)
        }
        RowTree::Leaf { leaf } => note_leaf(*leaf, number, lists),
    }
}

/// Notes the number of a row at the row that its leaf leads to, if it leads to one.
fn note_leaf(leaf: Leaf, number: u32, lists: &mut [RowNumbers]) -> Result<(), AllocError>
    requires { IsLeaf (length lists.old) leaf }
    ensures { OnOk result ((target : ℕ) → slice_get lists.new target
        ≡ option_map (noted_where (is_goto target leaf) number) (slice_get lists.old target)) }
{
    match leaf {
        Leaf::Goto { row } => note(&mut lists[row as usize], number),
        Leaf::Stop | Leaf::Trap { .. } => Ok(()),
    }
}

/// Appends a number to a list, unless it is the last one there.
fn note(list: &mut RowNumbers, number: u32) -> Result<(), AllocError>
    ensures { OnOk result (list.new ≡ noted number list.old) }
{
    match list.as_slice().last() {
        Some(last) if *last == number => Ok(()),
        _ => list.push(number),
    }
}
