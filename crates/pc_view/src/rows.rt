//! A row drawn as the tree that it is.
ghost use Rattle.std.specs.Prelude.{◌≡◌, ◌+◌, ◌++◌, ◌∷◌, [], ◌<◌, ◌^◌, length, OnOk, option_map, string_bytes};
ghost use Rattle.pc_word.specs.Line.{line};
ghost use Rattle.pc_word.specs.Row.{leaves_of};
ghost use Rattle.pc_machine.specs.MachineCode.{row_of};
ghost use Rattle.pc_view.specs.Tally.{tallied};
ghost use Rattle.pc_view.specs.Tree.{tree_lines};
ghost use Rattle.pc_view.specs.Listing.{lines_text};

use crate::tally::{Tally, push_taken};
use crate::words::{ItemWords, LeafWords, Medium, OperandWords};
use pc_machine::{Tree, leaf_count};
use pc_word::RowTree;
use std::alloc::{AllocError, Global};

/// What is told of a row, by its number.
#[derive(Clone, Copy)]
pub(crate) struct RowTold<'a> {
    pub tally: Option<Tally<'a>>,
    pub number: usize,
}

/// Appends the lines of a tree to a text. `first` stands in front of its first line, `below` in
/// front of the others. `told` says how
/// often the leaves of its row were taken, if that is to be told; `leaf` is the number of the tree's first leaf.
pub(crate) fn push_tree(
    alloc: Global,
    text: &mut String,
    first: &str,
    below: &str,
    row: &Tree,
    told: RowTold,
    leaf: usize,
) -> Result<(), AllocError>
    requires { leaf + length (leaves_of (row_of row.now)) < 2 ^ 64 }
    ensures { OnOk result (string_bytes text.new ≡ string_bytes text.old ++ lines_text (tree_lines (option_map tallied told.entry.tally) told.entry.number leaf first.now below.now (row_of row.now))) }
{
    match row {
        RowTree::Step { item, next } => {
            let item = ItemWords {
                medium: Medium::Line,
                item: *item,
            };
            writeln!(text, "{first}{item}")?;
            push_tree(alloc, text, below, below, next, told, leaf)
        }
        RowTree::Test { on, yes, no } => {
            let operand = OperandWords { operand: *on };
            writeln!(text, "{first}if {operand}")?;
            let yes_first = format!(in alloc; "{below}yes ")?;
            let yes_below = format!(in alloc; "{below}|   ")?;
            push_tree(
                alloc,
                text,
                yes_first.as_str(),
                yes_below.as_str(),
                yes,
                told,
                leaf,
            )?;
            let no_first = format!(in alloc; "{below}no  ")?;
            let no_below = format!(in alloc; "{below}    ")?;
            let later = leaf + leaf_count(yes);
            push_tree(
                alloc,
                text,
                no_first.as_str(),
                no_below.as_str(),
                no,
                told,
                later,
            )
        }
        RowTree::Leaf { leaf: to } => {
            let to = LeafWords { leaf: *to };
            write!(text, "{first}{to}")?;
            push_taken(text, told.tally, told.number, leaf)?;
            text.push_str("\n")
        }
    }
}
