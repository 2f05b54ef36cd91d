//! The names that are used below a place.
ghost use Rattle.std.specs.Prelude.{◌≡◌, ◌||◌, ◌&&◌, not, false, true, length, slice_set, slice_index_or};
ghost use Rattle.pc_word.specs.Items.{dest_of, reads, reads_name};
ghost use Rattle.pc_word.specs.Commit.{writes};
ghost use Rattle.pc_window.specs.Opening.{OperandBelow, ItemBelow, StubBelow};
ghost use Rattle.pc_window.specs.Names.{homes_use};
ghost use Rattle.pc_unify.specs.models.Marks.{is_marked, is_needed, Marks, PassesItem};

use pc_window::Home;
use pc_word::{Item, Operand, Operands};

/// Marks the name that an operand reads.
#[tactic(auto, using(crate::proofs::Marked::marks))]
pub(crate) fn mark(marks: &mut [bool], operand: Operand)
    requires { OperandBelow (length marks.old) operand }
    ensures { Marks marks.old marks.new (reads_name operand) }
{
    if let Operand::Name(name) = operand {
        marks[name as usize] = true;
    }
}

/// Marks the names that an item reads.
#[tactic(auto, using(crate::proofs::Marked::marks))]
pub(crate) fn mark_read(marks: &mut [bool], item: Item)
    requires { ItemBelow (length marks.old) item }
    ensures { Marks marks.old marks.new (reads item) }
{
    match item.operands() {
        Operands::None => {}
        Operands::One(one) => mark(marks, one),
        Operands::Two(one, other) => {
            mark(marks, one);
            mark(marks, other);
        }
    }
}

/// Marks the names that homes read.
#[tactic(auto, using(crate::proofs::Marked::homes))]
pub(crate) fn mark_homes(marks: &mut [bool], homes: &[Home])
    requires { StubBelow (length marks.old) homes.now }
    ensures { Marks marks.old marks.new (homes_use homes.now) }
{
    for at in 0..homes.len() {
        mark(marks, homes[at].value);
    }
}

/// Marks the names that an item reads, once the name that it writes is no longer marked.
#[tactic(auto, using(crate::proofs::Marked::items))]
pub(crate) fn mark_item(marks: &mut [bool], item: Item)
    requires { ItemBelow (length marks.old) item }
    ensures { PassesItem marks.old marks.new item }
{
    if let Some(dest) = item.dest() {
        marks[dest as usize] = false;
    }
    mark_read(marks, item);
}

/// Whether an item may not go: it does more than to write a name, or its name is marked.
pub(crate) fn is_needed(marks: &[bool], item: Item) -> bool
    requires { ItemBelow (length marks.now) item }
    ensures { result ≡ is_needed (is_marked marks.now) item }
{
    match item {
        Item::Bin { dest, .. } | Item::Load { dest, .. } | Item::More { dest } => {
            marks[dest as usize]
        }
        _ => true,
    }
}
