//! The cells of the table that a state's node is in the graph.
ghost use Rattle.std.specs.Prelude.{◌≡◌, ◌++◌, OnOk, Some, string_bytes};
ghost use Rattle.pc_word.specs.Line.{line};
ghost use Rattle.pc_word.specs.StoredRow.{row_in};
ghost use Rattle.pc_told.specs.Tellings.{telling_in};
ghost use Rattle.pc_view.specs.Listing.{lines_text};
ghost use Rattle.pc_explain.specs.Naming.{naming_in};
ghost use Rattle.pc_explain_graph.specs.Graph.{cell_operator, cell_item, colour, coloured_cell, port_cell, item_line, test_line, leaf_line, tree_table};

use pc_automaton::AutomatonLeaf;
use pc_explain::{ItemWords, PlaceWords, StateNaming, place, push_leaf, shown};
use pc_told::ToldRow;
use pc_view::operator_words;
use pc_word::{Item, OpCode, Operand, RowTree};
use std::alloc::{AllocError, Global};
use std::fmt;

/// What the row of a state is drawn with: the header of the loop, and how the state's names are written.
#[derive(Clone, Copy)]
pub(crate) struct Setting<'a> {
    pub(crate) header: u32,
    pub(crate) naming: StateNaming<'a>,
}

/// An item that is to be written in a cell.
#[derive(Clone, Copy)]
struct CellItem<'a> {
    naming: StateNaming<'a>,
    item: Item,
}

/// An operator in a cell, where `<`, `>` and `&` are written by their names.
fn cell_operator(op: OpCode) -> &'static str
    ensures { result.now ≡ cell_operator op }
{
    match op {
        OpCode::Shl => "&lt;&lt;",
        OpCode::Shr => "&gt;&gt;",
        OpCode::And => "&amp;",
        OpCode::Less => "&lt;",
        OpCode::LessEq => "&lt;=",
        _ => operator_words(op),
    }
}

impl<'a> fmt::Display for CellItem<'a> {
    ghost output = { λ cell. Some (cell_item (naming_in cell.naming) cell.item) };

    fn fmt<W: fmt::Write>(&self, f: &mut fmt::Formatter<W>) -> fmt::Result {
        let naming = self.naming;
        match self.item {
            Item::Bin {
                op,
                dest,
                left,
                right,
            } => {
                let (dest, op) = (shown(naming, Operand::Name(dest)), cell_operator(op));
                let (left, right) = (shown(naming, left), shown(naming, right));
                write!(f, "{dest} = {left} {op} {right}")
            }
            item => {
                let item = ItemWords { naming, item };
                write!(f, "{item}")
            }
        }
    }
}

/// The colour of an iteration: the ninth has that of the first again.
#[tactic(auto, unfolding(crate::specs::Graph::colour))]
fn colour(iteration: u32) -> &'static str
    ensures { result.now ≡ colour iteration }
{
    match iteration % 8 {
        0 => "#77aadd",
        1 => "#ee8866",
        2 => "#eedd88",
        3 => "#ffaabb",
        4 => "#99ddff",
        5 => "#44bb99",
        6 => "#bbcc33",
        _ => "#dddddd",
    }
}

/// Appends a line of a table, up to its words, to a text: `marks`, and the beginning of a cell in a colour.
#[tactic(auto, unfolding(crate::specs::Graph::coloured_cell))]
fn push_coloured_cell(text: &mut String, marks: &str, colour: &str) -> Result<(), AllocError>
    ensures { OnOk result (string_bytes text.new ≡ string_bytes text.old ++ coloured_cell marks.now colour.now) }
{
    write!(
        text,
        "        <tr><td align=\"left\">{marks}</td><td align=\"left\" bgcolor=\"{colour}\">"
    )
}

/// Appends a line of a table, up to its words, to a text: `marks`, and the beginning of a cell with a port.
#[tactic(auto, unfolding(crate::specs::Graph::port_cell))]
fn push_port_cell(text: &mut String, marks: &str, port: &str) -> Result<(), AllocError>
    ensures { OnOk result (string_bytes text.new ≡ string_bytes text.old ++ port_cell marks.now port.now) }
{
    write!(
        text,
        "        <tr><td align=\"left\">{marks}</td><td align=\"left\" port=\"{port}\">"
    )
}

/// Appends the line of an item to a text.
#[tactic(auto, unfolding(crate::specs::Graph::item_line))]
fn push_item(
    text: &mut String,
    naming: StateNaming,
    marks: &str,
    place: PlaceWords,
    item: Item,
) -> Result<(), AllocError>
    ensures { OnOk result (string_bytes text.new ≡ string_bytes text.old ++ line (item_line (naming_in naming.entry) marks.now place.iteration place.line item)) }
{
    push_coloured_cell(text, marks, colour(place.iteration))?;
    let item = CellItem { naming, item };
    writeln!(text, "{place}: {item}</td></tr>")
}

/// Appends the line of a test to a text.
#[tactic(auto, unfolding(crate::specs::Graph::test_line))]
fn push_test(
    text: &mut String,
    naming: StateNaming,
    marks: &str,
    place: PlaceWords,
    on: Operand,
) -> Result<(), AllocError>
    ensures { OnOk result (string_bytes text.new ≡ string_bytes text.old ++ line (test_line (naming_in naming.entry) marks.now place.iteration place.line on)) }
{
    push_coloured_cell(text, marks, colour(place.iteration))?;
    let on = shown(naming, on);
    writeln!(text, "{place}: if {on}</td></tr>")
}

/// Appends the line of a leaf to a text.
#[tactic(auto, unfolding(crate::specs::Graph::leaf_line))]
fn push_end(
    text: &mut String,
    setting: Setting,
    marks: &str,
    port: &str,
    leaf: &AutomatonLeaf,
    advance: Option<u32>,
) -> Result<(), AllocError>
    ensures { OnOk result (string_bytes text.new ≡ string_bytes text.old ++ line (leaf_line setting.entry.header (naming_in setting.entry.naming) marks.now port.now leaf.now advance)) }
{
    push_port_cell(text, marks, port)?;
    push_leaf(text, setting.header, setting.naming, leaf, advance)?;
    text.push_str("</td></tr>\n")
}

/// Appends the lines of a table for a row, with what is told of it, which has the same shape, to a text. `first` stands in front of
/// its first line, `below` in front of the others; `port` is the name of the port of its leaf, if it has one alone.
pub(crate) fn push_table(
    alloc: Global,
    text: &mut String,
    setting: Setting,
    first: &str,
    below: &str,
    port: &str,
    row: &RowTree<AutomatonLeaf>,
    told: &ToldRow,
) -> Result<(), AllocError>
    ensures { OnOk result (string_bytes text.new ≡ string_bytes text.old
        ++ lines_text (tree_table setting.entry.header (naming_in setting.entry.naming) first.now below.now port.now (row_in (λ leaf. leaf) row.now) (telling_in told.now))) }
{
    match (row, told) {
        (
            RowTree::Step { item, next },
            ToldRow::Step {
                iteration,
                origin,
                next: told_next,
                ..
            },
        ) => {
            let place = place(setting.naming.legend, *iteration, *origin);
            push_item(text, setting.naming, first, place, *item)?;
            push_table(alloc, text, setting, below, below, port, next, told_next)
        }
        (
            RowTree::Test { on, yes, no },
            ToldRow::Test {
                iteration,
                origin,
                yes: one,
                no: other,
                ..
            },
        ) => {
            let place = place(setting.naming.legend, *iteration, *origin);
            push_test(text, setting.naming, first, place, *on)?;
            let way = format!(in alloc; "{port}y")?;
            let mark = format!(in alloc; "{below}yes ")?;
            let bar = format!(in alloc; "{below}|   ")?;
            push_table(
                alloc,
                text,
                setting,
                mark.as_str(),
                bar.as_str(),
                way.as_str(),
                yes,
                one,
            )?;
            let way = format!(in alloc; "{port}n")?;
            let mark = format!(in alloc; "{below}no  ")?;
            let bar = format!(in alloc; "{below}    ")?;
            push_table(
                alloc,
                text,
                setting,
                mark.as_str(),
                bar.as_str(),
                way.as_str(),
                no,
                other,
            )
        }
        (RowTree::Leaf { leaf }, ToldRow::Leaf { advance }) => {
            push_end(text, setting, first, port, leaf, *advance)
        }
        _ => Ok(()),
    }
}
