//! How many bytes rows have.
ghost use Rattle.std.specs.Prelude.{◌≡◌, ◌+◌, ◌≤◌, true, length, IfSome};
ghost use Rattle.std.specs.List.{flat_map};
ghost use Rattle.pc_machine.specs.MachineCode.{row_of, rows_of};
ghost use Rattle.pc_object.specs.ObjectText.{leaf_text, row_text};

use pc_machine::{Leaf, Tree};
use pc_object::{END_BYTES, GOTO_BYTES, TRAP_BYTES, item_bytes, test_bytes};
use pc_word::RowTree;

/// The bytes of a leaf.
#[tactic(auto, using(crate::proofs::Texts::leaf_laws))]
fn leaf_bytes(leaf: Leaf) -> u32
    ensures { length (leaf_text leaf) ≡ result }
{
    match leaf {
        Leaf::Goto { .. } => GOTO_BYTES,
        Leaf::Stop => END_BYTES,
        Leaf::Trap { .. } => TRAP_BYTES,
    }
}

/// What is left of so many bytes behind a row, or what is left of one; `None` where it has more.
#[tactic(auto, using(crate::proofs::Texts::row_laws))]
fn left_behind(tree: &Tree, left: usize) -> Option<usize>
    ensures { IfSome result (λ rest. length (row_text (row_of tree.now)) + rest ≡ left) }
{
    match tree {
        RowTree::Step { item, next } => {
            let rest = left.checked_sub(item_bytes(*item) as usize)?;
            left_behind(next, rest)
        }
        RowTree::Test { on, yes, no } => {
            let sides = left.checked_sub(test_bytes(*on) as usize)?;
            let rest = left_behind(yes, sides)?;
            left_behind(no, rest)
        }
        RowTree::Leaf { leaf } => left.checked_sub(leaf_bytes(*leaf) as usize),
    }
}

/// Whether rows are written in so many bytes.
pub(crate) fn fit(rows: &[Tree], most: usize) -> bool
    ensures { result ≡ true → length (flat_map row_text (rows_of rows.now)) ≤ most }
{
    let mut left = most;
    for tree in rows {
        match left_behind(tree, left) {
            Some(rest) => left = rest,
            None => return false,
        }
    }
    true
}
