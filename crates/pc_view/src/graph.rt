//! An object as a graph in the language DOT.
ghost use Rattle.std.specs.Prelude.{◌≡◌, ◌+◌, ◌++◌, ◌∷◌, [], ◌<◌, ◌≤◌, ◌^◌, All, length, IfOk, OnOk, codes, option_map, string_bytes};
ghost use Rattle.std.specs.Fmt.{decimal};
ghost use Rattle.std.specs.List.{AllByRecursion};
ghost use Rattle.pc_machine.specs.MachineCode.{row_of, rows_of};
ghost use Rattle.pc_object.specs.ObjectText.{object_of, IsObject, IsChoice};
ghost use Rattle.pc_word.specs.Line.{line};
ghost use Rattle.pc_word.specs.Row.{At_leaf, leaves_of};
ghost use Rattle.pc_view.specs.Listing.{lines_text};
ghost use Rattle.pc_view.specs.Graph.{data_node, data_nodes, row_fields, shade_words, node_start, label_start, row_node, edge_label, row_edges, row_drawn, row_graph, choice_colour, note_start, note_node, note_nodes, graph_lines, graph_text, tallied_graph_text};
ghost use Rattle.pc_view.specs.Tally.{tallied};
ghost use Rattle.pc_view.specs.models.Counted.{HasFew};

use crate::tally::{Tally, push_cycles};
use crate::words::{ItemWords, LeafWords, Medium, OperandWords};
use pc_machine::{Code, Leaf, Tree, leaf_count};
use pc_object::{Note, Object};
use pc_report::push_note_words;
use pc_word::{RowTree, WordList};
use std::alloc::{AllocError, Global};

/// An object as a graph in the language DOT: each row is a record node with its tree, each leaf that leads to a row
/// an edge, each array that begins with words a box that tells how many, and each note a box whose colour says the loop's form: green where it is pipelined, yellow where it is
/// packed, red where it is plain.
pub fn graph_text(alloc: Global, object: &Object) -> Result<Vec<u8>, AllocError>
    requires { IsObject (object_of object.now) }
    ensures { IfOk result (λ text. text.items ≡ graph_text (object_of object.now)) }
{
    graph(alloc, object, None)
}

/// The same graph of an object that was run: each row is shaded, the deeper, the more of the cycles ran it, and tells how often
/// it ran, as each edge tells how often it was taken. `tally` has the counts; where it has none, 0 is told.
pub fn tallied_graph_text(
    alloc: Global,
    object: &Object,
    tally: Tally,
) -> Result<Vec<u8>, AllocError>
    requires { IsObject (object_of object.now) }
    ensures { IfOk result (λ text. text.items ≡ tallied_graph_text (tallied tally.entry) (object_of object.now)) }
{
    graph(alloc, object, Some(tally))
}

/// The graph of an object, with how often its rows ran and their leaves were taken, if that is to be told.
fn graph(alloc: Global, object: &Object, told: Option<Tally>) -> Result<Vec<u8>, AllocError>
    requires { IsObject (object_of object.now) }
    ensures { IfOk result (λ text. text.items ≡ lines_text (graph_lines (option_map tallied told.entry) (object_of object.now))) }
{
    let mut text = format!(in alloc; "digraph rows {{\n    node [shape=record];\n")?;
    push_data(&mut text, object.code.initial.as_slice())?;
    push_rows(alloc, &mut text, &object.code, told)?;
    push_notes(&mut text, object.notes.as_slice())?;
    text.push_str("}\n")?;
    Ok(text.into_bytes())
}

/// Appends the boxes of the arrays that have data to a text.
fn push_data(text: &mut String, lists: &[WordList]) -> Result<(), AllocError>
    ensures { OnOk result (string_bytes text.new ≡ string_bytes text.old ++ lines_text (data_nodes 0 lists.now)) }
{
    for (array, words) in lists.iter().enumerate() {
        if !words.is_empty() {
            push_data_node(text, array, words.len())?;
            text.push_str("\n")?;
        }
    }
    Ok(())
}

/// Appends the box of an array with data to a text.
#[tactic(auto, unfolding(crate::specs::Graph::data_node))]
fn push_data_node(text: &mut String, array: usize, count: usize) -> Result<(), AllocError>
    ensures { OnOk result (string_bytes text.new ≡ string_bytes text.old ++ data_node array count) }
{
    write!(
        text,
        "    data{array} [shape=box, label=\"words of a{array}: {count}\"];"
    )
}

/// Appends the nodes and edges of rows to a text.
fn push_rows(
    alloc: Global,
    text: &mut String,
    code: &Code,
    told: Option<Tally>,
) -> Result<(), AllocError>
    requires { All (λ tree. HasFew (row_of tree)) code.now.rows }
    ensures { OnOk result (string_bytes text.new ≡ string_bytes text.old ++ lines_text (row_graph (option_map tallied told.entry) 0 (rows_of code.now.rows))) }
{
    let rows = code.rows.as_slice();
    for (number, row) in rows.iter().enumerate() {
        push_row(alloc, text, number, row, told)?;
    }
    Ok(())
}

/// Appends the node and the edges of a row to a text.
fn push_row(
    alloc: Global,
    text: &mut String,
    number: usize,
    row: &Tree,
    told: Option<Tally>,
) -> Result<(), AllocError>
    requires { HasFew (row_of row.now) }
    ensures { OnOk result (string_bytes text.new ≡ string_bytes text.old
        ++ lines_text (row_drawn (option_map tallied told.entry) number (row_of row.now))) }
{
    push_node(alloc, text, number, row, told)?;
    text.push_str("\n")?;
    push_edges(alloc, text, number, 0, "p", row, told)
}

/// Appends the node of a row to a text.
fn push_node(
    alloc: Global,
    text: &mut String,
    number: usize,
    row: &Tree,
    told: Option<Tally>,
) -> Result<(), AllocError>
    ensures { OnOk result (string_bytes text.new ≡ string_bytes text.old ++ row_node (option_map tallied told.entry) number (row_of row.now)) }
{
    push_node_start(text, number, told)?;
    push_label_start(text, number, told)?;
    push_fields(alloc, text, "p", row)?;
    text.push_str("}\"];")
}

/// Appends the beginning of the node of a row to a text.
#[tactic(auto, unfolding(crate::specs::Graph::node_start))]
fn push_node_start(text: &mut String, number: usize, told: Option<Tally>) -> Result<(), AllocError>
    ensures { OnOk result (string_bytes text.new ≡ string_bytes text.old ++ node_start (option_map tallied told.entry) number) }
{
    write!(text, "    {number} [")?;
    push_shade(text, number, told)
}

/// Appends the shade of a row to a text, if there is one.
fn push_shade(text: &mut String, number: usize, told: Option<Tally>) -> Result<(), AllocError>
    ensures { OnOk result (string_bytes text.new ≡ string_bytes text.old ++ shade_words (option_map tallied told.entry) number) }
{
    match told {
        Some(tally) => {
            let share = tally.row_share(number);
            write!(text, "style=filled, fillcolor=\"0.000 {share} 1.000\", ")
        }
        None => Ok(()),
    }
}

/// Appends the label of the node of a row to a text, up to the fields.
#[tactic(auto, unfolding(crate::specs::Graph::label_start))]
fn push_label_start(text: &mut String, number: usize, told: Option<Tally>) -> Result<(), AllocError>
    ensures { OnOk result (string_bytes text.new ≡ string_bytes text.old ++ label_start (option_map tallied told.entry) number) }
{
    push_label(text, number)?;
    push_cycles(text, told, number)?;
    text.push_str("|")
}

/// Appends the number of a row to a text, in its label.
fn push_label(text: &mut String, number: usize) -> Result<(), AllocError>
    ensures { OnOk result (string_bytes text.new ≡ string_bytes text.old ++ (codes "label=\"{row " ++ decimal number)) }
{
    write!(text, "label=\"{{row {number}")
}

/// Appends the fields of a tree to a text. `port` is the name of the port of its leaf, if it has one alone.
fn push_fields(alloc: Global, text: &mut String, port: &str, row: &Tree) -> Result<(), AllocError>
    ensures { OnOk result (string_bytes text.new ≡ string_bytes text.old ++ row_fields port.now (row_of row.now)) }
{
    match row {
        RowTree::Step { item, next } => {
            let item = ItemWords {
                medium: Medium::Field,
                item: *item,
            };
            write!(text, "{item}|")?;
            push_fields(alloc, text, port, next)
        }
        RowTree::Test { on, yes, no } => {
            let operand = OperandWords { operand: *on };
            write!(text, "if {operand}|{{{{yes|")?;
            let yes_port = format!(in alloc; "{port}y")?;
            push_fields(alloc, text, yes_port.as_str(), yes)?;
            text.push_str("}|{no|")?;
            let no_port = format!(in alloc; "{port}n")?;
            push_fields(alloc, text, no_port.as_str(), no)?;
            text.push_str("}}")
        }
        RowTree::Leaf { leaf } => {
            let leaf = LeafWords { leaf: *leaf };
            write!(text, "<{port}> {leaf}")
        }
    }
}

/// Appends the edges of a row to a text, from the ports of its leaves. `leaf` is the number of its first leaf, and `told` has
/// how often the row's leaves were taken, if that is to be told.
fn push_edges(
    alloc: Global,
    text: &mut String,
    number: usize,
    leaf: usize,
    port: &str,
    row: &Tree,
    told: Option<Tally>,
) -> Result<(), AllocError>
    requires { leaf + length (leaves_of (row_of row.now)) < 2 ^ 64 }
    ensures { OnOk result (string_bytes text.new ≡ string_bytes text.old ++ lines_text (row_edges (option_map tallied told.entry) number leaf port.now (row_of row.now))) }
{
    match row {
        RowTree::Step { next, .. } => push_edges(alloc, text, number, leaf, port, next, told),
        RowTree::Test { yes, no, .. } => {
            let yes_port = format!(in alloc; "{port}y")?;
            push_edges(alloc, text, number, leaf, yes_port.as_str(), yes, told)?;
            let no_port = format!(in alloc; "{port}n")?;
            let later = leaf + leaf_count(yes);
            push_edges(alloc, text, number, later, no_port.as_str(), no, told)
        }
        RowTree::Leaf { leaf: to } => push_edge(text, number, leaf, port, *to, told),
    }
}

/// Appends the edge of a leaf to a text, from its port, if the leaf leads to a row.
fn push_edge(
    text: &mut String,
    number: usize,
    leaf: usize,
    port: &str,
    to: Leaf,
    told: Option<Tally>,
) -> Result<(), AllocError>
    ensures { OnOk result (string_bytes text.new ≡ string_bytes text.old ++ lines_text (row_edges (option_map tallied told.entry) number leaf port.now (At_leaf to))) }
{
    match to {
        Leaf::Goto { row } => {
            write!(text, "    {number}:{port} -> {row}")?;
            push_edge_label(text, told, number, leaf)?;
            text.push_str(";\n")
        }
        Leaf::Stop | Leaf::Trap { .. } => Ok(()),
    }
}

/// Appends the label of an edge to a text, if it has one.
fn push_edge_label(
    text: &mut String,
    told: Option<Tally>,
    number: usize,
    leaf: usize,
) -> Result<(), AllocError>
    ensures { OnOk result (string_bytes text.new ≡ string_bytes text.old ++ edge_label (option_map tallied told.entry) number leaf) }
{
    match told {
        Some(tally) => {
            let times = tally.times_taken(number, leaf);
            write!(text, " [label=\"{times}\"]")
        }
        None => Ok(()),
    }
}

/// Appends the boxes of notes to a text.
fn push_notes(text: &mut String, notes: &[Note]) -> Result<(), AllocError>
    requires { AllByRecursion IsChoice notes.now }
    ensures { OnOk result (string_bytes text.new ≡ string_bytes text.old ++ lines_text (note_nodes 0 notes.now)) }
{
    for (number, note) in notes.iter().enumerate() {
        push_note(text, number, *note)?;
        text.push_str("\n")?;
    }
    Ok(())
}

/// Appends the box of a note to a text.
fn push_note(text: &mut String, number: usize, note: Note) -> Result<(), AllocError>
    requires { IsChoice note }
    ensures { OnOk result (string_bytes text.new ≡ string_bytes text.old ++ note_node number note) }
{
    push_note_start(text, number, choice_colour(note.choice))?;
    push_note_words(text, note)?;
    text.push_str("\"];")
}

/// Appends the beginning of the box of a note to a text.
#[tactic(auto, unfolding(crate::specs::Graph::note_start))]
fn push_note_start(text: &mut String, number: usize, colour: &str) -> Result<(), AllocError>
    ensures { OnOk result (string_bytes text.new ≡ string_bytes text.old ++ note_start number colour.now) }
{
    write!(
        text,
        "    note{number} [shape=box, style=filled, fillcolor={colour}, label=\""
    )
}

/// The colour of a loop, by the choice of its note.
fn choice_colour(choice: u8) -> &'static str
    requires { choice ≤ 7 }
    ensures { result.now ≡ choice_colour choice }
{
    match choice {
        0 => "palegreen",
        1..=4 => "khaki",
        _ => "lightsalmon",
    }
}
