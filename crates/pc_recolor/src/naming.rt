//! Whether rows have numbers in the order in which they are first named.
ghost use Rattle.std.specs.Prelude.{◌≡◌, true};
ghost use Rattle.pc_machine.specs.MachineCode.{row_of, rows_of};
ghost use Rattle.pc_tighten.specs.Tightened.{EachIsReachable};
ghost use Rattle.pc_recolor.specs.models.Recoloring.{Names};

use pc_machine::Tree;
use pc_word::RowTree;

/// How many rows are named once this row, or what is left of one, is seen, where so many were
/// before. A row that is named counts if all with lesser numbers are.
#[tactic(auto, using(crate::proofs::Named::naming_laws))]
fn named_after(tree: &Tree, known: u32) -> u32
    ensures { Names (row_of tree.now) known result }
{
    match tree {
        RowTree::Step { next, .. } => named_after(next, known),
        RowTree::Test { yes, no, .. } => {
            let between = named_after(yes, known);
            named_after(no, between)
        }
        RowTree::Leaf { leaf } => {
            if leaf.is_goto(known as usize) && known < u32::MAX {
                known + 1
            } else {
                known
            }
        }
    }
}

/// Whether each row but row 0 is named by a leaf of a row with a lesser number, and those with lesser numbers first.
pub(crate) fn are_named_in_order(rows: &[Tree]) -> bool
    ensures { result ≡ true → EachIsReachable (rows_of rows.now) }
{
    let mut known: u32 = 1;
    for number in 0..rows.len() {
        if known as usize <= number {
            return false;
        }
        known = named_after(&rows[number], known);
    }
    true
}
