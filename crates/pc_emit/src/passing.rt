//! Leaves that lead on through rows of copies.
ghost use Rattle.std.specs.Prelude.{◌≡◌, ◌+◌, ◌*◌, ◌≤◌, [], ◌∷◌, length, IfOk, OnOk};
ghost use Rattle.pc_copies.specs.Laws.{copy_row};
ghost use Rattle.pc_machine.specs.MachineCode.{row_of, rows_of};
ghost use Rattle.pc_object.specs.ObjectText.{leaf_text};
ghost use Rattle.pc_emit.specs.Bytes.{passed_bytes};
ghost use Rattle.pc_emit.specs.models.Output.{bytes_of, EachCopy, OutputGrows};
ghost use Rattle.pc_emit.specs.models.Layout.{rows_end, IsLeft, IsPlan};
ghost use Rattle.pc_emit.specs.models.Packing.{CanMove, MovesAlong};
ghost use Rattle.pc_emit.specs.models.Making.{CopiesMayLeadTo, IsOnTheWay, LeavesReached};
ghost use Rattle.pc_object.specs.Sizes.{goto_bytes};

use crate::error::EmitError;
use crate::output::Output;
use crate::plan::Plan;
use crate::trees::with_item;
use pc_copies::{Move, arrange};
use pc_machine::{Leaf, Tree};
use pc_word::{Item, RowTree};
use std::alloc::{AllocError, Global};

/// Appends the rows of copies that do moves to others, the last one first, and returns what leads
/// through them all to this leaf. Cycles of moves go through scratch.
#[tactic(auto, using(crate::proofs::Passings::passings))]
pub(crate) fn move_along(
    alloc: Global,
    plan: &Plan,
    scratch: u8,
    moves: &[Move],
    to: Leaf,
    output: &mut Output,
) -> Result<Leaf, EmitError>
    requires plan { IsPlan plan.now }
    requires base { output.old.base ≡ rows_end plan.now }
    requires moves { CanMove scratch moves.now }
    requires left { IsLeft plan.now scratch }
    requires to { CopiesMayLeadTo plan.now to }
    ensures grows { OnOk result (OutputGrows output.old output.new) }
    ensures rows { OnOk result (output.new.rows ≡ output.old.rows) }
    ensures moved { IfOk result (λ from. MovesAlong plan.now scratch output.new from moves.now to) }
    ensures ways { IfOk result (λ from. EachCopy (IsOnTheWay plan.now (LeavesReached (from ∷ []))) output.old output.new) }
    ensures short { IfOk result (λ from. bytes_of (rows_of output.new.copies.items) + length (leaf_text from)
        ≤ bytes_of (rows_of output.old.copies.items) + (goto_bytes + passed_bytes * length moves.now)) }
{
    let rows = arrange(alloc, moves, plan.limits.ops, scratch)?;
    let rows = rows.as_slice();
    let mut from = to;
    let mut at = rows.len();
    while at > 0 {
        at -= 1;
        let row = copy_row(alloc, rows[at].as_slice(), from)?;
        from = Leaf::Goto {
            row: output.push_copies(row)?,
        };
    }
    Ok(from)
}

/// The row that does copies before it comes to a leaf.
fn copy_row(alloc: Global, copies: &[Move], leaf: Leaf) -> Result<Tree, AllocError>
    ensures { IfOk result (λ tree. row_of tree ≡ copy_row copies.now leaf) }
{
    let mut tree = RowTree::Leaf { leaf };
    let mut at = copies.len();
    while at > 0 {
        at -= 1;
        let item = Item::Copy {
            dest: copies[at].dest,
            from: copies[at].from,
        };
        tree = with_item(alloc, item, tree)?;
    }
    Ok(tree)
}
