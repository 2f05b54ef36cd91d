//! The row of a state, drawn as the tree that it is.
ghost use Rattle.std.specs.Prelude.{◌≡◌, ◌++◌, OnOk, string_bytes};
ghost use Rattle.pc_word.specs.StoredRow.{row_in};
ghost use Rattle.pc_told.specs.Tellings.{telling_in};
ghost use Rattle.pc_view.specs.Listing.{lines_text};
ghost use Rattle.pc_explain.specs.Naming.{naming_in};
ghost use Rattle.pc_explain_text.specs.StateLines.{tree_lines};

use pc_automaton::AutomatonLeaf;
use pc_explain::{ItemWords, StateNaming, place, push_leaf, shown};
use pc_told::ToldRow;
use pc_word::RowTree;
use std::alloc::{AllocError, Global};

/// What the row of a state is drawn with: the region that heads the loop, and how the names of the state are written.
#[derive(Clone, Copy)]
pub(crate) struct Setting<'a> {
    pub(crate) header: u32,
    pub(crate) naming: StateNaming<'a>,
}

/// Appends the lines of a row to a text, with what is told of it, which has the same shape. `first` stands in front of its first
/// line, `below` in front of the others.
pub(crate) fn push_tree(
    alloc: Global,
    text: &mut String,
    setting: Setting,
    first: &str,
    below: &str,
    row: &RowTree<AutomatonLeaf>,
    told: &ToldRow,
) -> Result<(), AllocError>
    ensures { OnOk result (string_bytes text.new ≡ string_bytes text.old
        ++ lines_text (tree_lines setting.entry.header (naming_in setting.entry.naming) first.now below.now (row_in (λ leaf. leaf) row.now) (telling_in told.now))) }
{
    match (row, told) {
        (
            RowTree::Step { item, next },
            ToldRow::Step {
                iteration,
                origin,
                next: told_next,
                ..
            },
        ) => {
            let place = place(setting.naming.legend, *iteration, *origin);
            let item = ItemWords {
                naming: setting.naming,
                item: *item,
            };
            writeln!(text, "{first}{place}: {item}")?;
            push_tree(alloc, text, setting, below, below, next, told_next)
        }
        (
            RowTree::Test { on, yes, no },
            ToldRow::Test {
                iteration,
                origin,
                yes: one,
                no: other,
                ..
            },
        ) => {
            let place = place(setting.naming.legend, *iteration, *origin);
            let on = shown(setting.naming, *on);
            writeln!(text, "{first}{place}: if {on}")?;
            let mark = format!(in alloc; "{below}yes ")?;
            let bar = format!(in alloc; "{below}|   ")?;
            push_tree(alloc, text, setting, mark.as_str(), bar.as_str(), yes, one)?;
            let mark = format!(in alloc; "{below}no  ")?;
            let bar = format!(in alloc; "{below}    ")?;
            push_tree(alloc, text, setting, mark.as_str(), bar.as_str(), no, other)
        }
        (RowTree::Leaf { leaf }, ToldRow::Leaf { advance }) => {
            text.push_str(first)?;
            push_leaf(text, setting.header, setting.naming, leaf, *advance)?;
            text.push_str("\n")
        }
        _ => Ok(()),
    }
}
