//! Explanations as a graph in the language DOT.
ghost use Rattle.std.specs.Prelude.{◌≡◌, ◌++◌, codes, Some, IfOk, IfSome, OnOk, option_map, string_bytes};
ghost use Rattle.std.specs.List.{AllByRecursion, flat_map};
ghost use Rattle.pc_word.specs.Line.{line};
ghost use Rattle.pc_automaton.specs.Automaton.{state_in};
ghost use Rattle.pc_automaton.specs.RowFits.{RowFits};
ghost use Rattle.pc_object.specs.ObjectText.{IsChoice};
ghost use Rattle.pc_report.specs.Report.{note_words};
ghost use Rattle.pc_view.specs.Listing.{lines_text};
ghost use Rattle.pc_compile.specs.Notes.{note_list};
ghost use Rattle.pc_explain.specs.Explained.{schedule_in, explanation_in, explanations_in, ScheduleCanBeWritten, CanBeWritten};
ghost use Rattle.pc_explain.specs.EachState.{explained_in};
ghost use Rattle.pc_explain.specs.Legends.{legend_in};
ghost use Rattle.pc_explain.specs.Naming.{naming_in};
ghost use Rattle.pc_explain_graph.specs.Graph.{graph_start, heading_start, heading_cell, node_start, table_end, row_table, named_node, state_node, plain_node, loop_nodes, cluster_start, label_start, cluster_label, loop_graph, loops_graph, graph_label_start, no_loop_line, no_loop_label, explanation_graph};

use crate::cells::{Setting, push_table};
use crate::edges::{StateName, push_loop_edges};
use pc_automaton::AutomatonState;
use pc_explain::{
    Legend, LoopExplanation, Schedule, StateNaming, StateView, push_heading, push_no_loop_words,
};
use pc_object::Note;
use pc_report::push_note_words;
use pc_word::Limits;
use std::alloc::{AllocError, Global};

/// Explanations of loops as a graph in the language DOT: a cluster for each loop, whose label is its region and its note, and in it a
/// node for each state of its schedule, a table with what `explanation_text` tells of the state. Items and tests have the colour of
/// their iteration, of which there are eight; each leaf has a port, from which an edge goes to the state that it leads to, whose label is
/// the first iteration of which anything is left. An edge that leaves the loop goes to a node of the region, of the end, or of the trap,
/// and one that begins the loop again to its first state. A loop without a schedule has one node, which says so.
///
/// Where there are no explanations, the label of the graph says so, of the line that was asked for, if one was.
pub fn explanation_graph(
    alloc: Global,
    limits: Limits,
    legend: &Legend,
    line: Option<u32>,
    loops: &[LoopExplanation],
) -> Result<Vec<u8>, AllocError>
    requires can { AllByRecursion (CanBeWritten limits) (explanations_in loops.now) }
    ensures { IfOk result (λ text. text.items ≡ explanation_graph limits (legend_in legend.now) line (explanations_in loops.now)) }
{
    let mut text = String::new(alloc);
    push_graph_start(&mut text)?;
    push_no_loop_label(&mut text, line, loops)?;
    push_loops(alloc, &mut text, limits, legend, loops)?;
    text.push_str("}\n")?;
    Ok(text.into_bytes())
}

/// Appends the first lines of the graph to a text.
#[tactic(auto, unfolding(crate::specs::Graph::graph_start))]
fn push_graph_start(text: &mut String) -> Result<(), AllocError>
    ensures { OnOk result (string_bytes text.new ≡ string_bytes text.old ++ lines_text graph_start) }
{
    text.push_str("digraph schedules {\n    node [shape=plain, fontname=\"monospace\"];\n")
}

/// Appends the label that says that there is no explanation to a text, where there is none.
fn push_no_loop_label(
    text: &mut String,
    asked: Option<u32>,
    loops: &[LoopExplanation],
) -> Result<(), AllocError>
    ensures { OnOk result (string_bytes text.new ≡ string_bytes text.old ++ lines_text (no_loop_label asked (explanations_in loops.now))) }
{
    match loops {
        [] => push_no_loop_line(text, asked),
        _ => Ok(()),
    }
}

/// Appends the line of that label to a text.
fn push_no_loop_line(text: &mut String, asked: Option<u32>) -> Result<(), AllocError>
    ensures { OnOk result (string_bytes text.new ≡ string_bytes text.old ++ line (no_loop_line asked)) }
{
    push_graph_label_start(text)?;
    push_no_loop_words(text, asked)?;
    text.push_str("\";\n")
}

/// Appends the beginning of a label of the graph to a text.
#[tactic(auto, unfolding(crate::specs::Graph::graph_label_start))]
fn push_graph_label_start(text: &mut String) -> Result<(), AllocError>
    ensures { OnOk result (string_bytes text.new ≡ string_bytes text.old ++ graph_label_start) }
{
    text.push_str("    label=\"")
}

/// Appends the clusters and edges of loops to a text.
fn push_loops(
    alloc: Global,
    text: &mut String,
    limits: Limits,
    legend: &Legend,
    loops: &[LoopExplanation],
) -> Result<(), AllocError>
    requires { AllByRecursion (λ it. CanBeWritten limits (explanation_in it)) loops.now }
    ensures { OnOk result (string_bytes text.new ≡ string_bytes text.old ++ lines_text (loops_graph limits (legend_in legend.now) 0 (explanations_in loops.now))) }
{
    for (cluster, explanation) in loops.iter().enumerate() {
        push_loop(alloc, text, limits, legend, cluster, explanation)?;
    }
    Ok(())
}

/// Appends the cluster of a loop, by its number, and the loop's edges to a text.
fn push_loop(
    alloc: Global,
    text: &mut String,
    limits: Limits,
    legend: &Legend,
    cluster: usize,
    it: &LoopExplanation,
) -> Result<(), AllocError>
    requires { CanBeWritten limits (explanation_in it.now) }
    ensures { OnOk result (string_bytes text.new ≡ string_bytes text.old ++ lines_text (loop_graph limits (legend_in legend.now) cluster (explanation_in it.now))) }
{
    push_cluster_line(text, cluster)?;
    push_cluster_label(text, it.region, it.note)?;
    push_loop_nodes(
        alloc,
        text,
        limits,
        legend,
        it.region,
        cluster,
        &it.schedule,
    )?;
    text.push_str("    }\n")?;
    push_loop_edges(alloc, text, it.region, cluster, &it.schedule)
}

/// Appends the first line of a cluster to a text.
fn push_cluster_line(text: &mut String, cluster: usize) -> Result<(), AllocError>
    ensures { OnOk result (string_bytes text.new ≡ string_bytes text.old ++ line (cluster_start cluster)) }
{
    push_cluster_start(text, cluster)?;
    text.push_str("\n")
}

/// Appends that line to a text, without a line feed.
#[tactic(auto, unfolding(crate::specs::Graph::cluster_start))]
fn push_cluster_start(text: &mut String, cluster: usize) -> Result<(), AllocError>
    ensures { OnOk result (string_bytes text.new ≡ string_bytes text.old ++ cluster_start cluster) }
{
    write!(text, "    subgraph cluster_{cluster} {{")
}

/// Appends the label of a cluster to a text.
fn push_cluster_label(text: &mut String, region: u32, note: Option<Note>) -> Result<(), AllocError>
    requires { AllByRecursion IsChoice (note_list note) }
    ensures { OnOk result (string_bytes text.new ≡ string_bytes text.old ++ line (cluster_label region (note_list note))) }
{
    push_label_start(text, region)?;
    push_note(text, note)?;
    text.push_str("\";\n")
}

/// Appends the beginning of the label of a cluster to a text.
#[tactic(auto, unfolding(crate::specs::Graph::label_start))]
fn push_label_start(text: &mut String, region: u32) -> Result<(), AllocError>
    ensures { OnOk result (string_bytes text.new ≡ string_bytes text.old ++ label_start region) }
{
    write!(text, "        label=\"region {region}")
}

/// Appends a note, if there is one, to the text of a label.
fn push_note(text: &mut String, note: Option<Note>) -> Result<(), AllocError>
    requires { AllByRecursion IsChoice (note_list note) }
    ensures { OnOk result (string_bytes text.new ≡ string_bytes text.old ++ flat_map (λ note. codes ", " ++ note_words note) (note_list note)) }
{
    match note {
        None => Ok(()),
        Some(note) => {
            text.push_str(", ")?;
            push_note_words(text, note)
        }
    }
}

/// Appends the nodes of a loop with this header to a text.
fn push_loop_nodes(
    alloc: Global,
    text: &mut String,
    limits: Limits,
    legend: &Legend,
    header: u32,
    cluster: usize,
    schedule: &Option<Schedule>,
) -> Result<(), AllocError>
    requires { IfSome (option_map schedule_in schedule.now) (ScheduleCanBeWritten limits) }
    ensures { OnOk result (string_bytes text.new ≡ string_bytes text.old
        ++ lines_text (loop_nodes limits (legend_in legend.now) header cluster (option_map schedule_in schedule.now))) }
{
    match schedule {
        None => push_plain_line(text, cluster),
        Some(schedule) => push_nodes(alloc, text, limits, legend, header, cluster, schedule),
    }
}

/// Appends the line of the node of a loop that has no schedule to a text.
fn push_plain_line(text: &mut String, cluster: usize) -> Result<(), AllocError>
    ensures { OnOk result (string_bytes text.new ≡ string_bytes text.old ++ line (plain_node cluster)) }
{
    push_plain_node(text, cluster)?;
    text.push_str("\n")
}

/// Appends that node to a text, without a line feed.
#[tactic(auto, unfolding(crate::specs::Graph::plain_node))]
fn push_plain_node(text: &mut String, cluster: usize) -> Result<(), AllocError>
    ensures { OnOk result (string_bytes text.new ≡ string_bytes text.old ++ plain_node cluster) }
{
    write!(text, "        plain{cluster} [label=\"no schedule\"];")
}

/// Appends the nodes of the states of a schedule to a text.
fn push_nodes(
    alloc: Global,
    text: &mut String,
    limits: Limits,
    legend: &Legend,
    header: u32,
    cluster: usize,
    schedule: &Schedule,
) -> Result<(), AllocError>
    requires { ScheduleCanBeWritten limits (schedule_in schedule.now) }
    ensures { OnOk result (string_bytes text.new ≡ string_bytes text.old
        ++ lines_text (loop_nodes limits (legend_in legend.now) header cluster (Some (schedule_in schedule.now)))) }
{
    for number in 0..schedule.count() {
        let it = schedule.state(number);
        let naming = it.naming(legend);
        let setting = Setting { header, naming };
        push_node(alloc, text, limits, setting, cluster, number, it)?;
    }
    Ok(())
}

/// Appends the node of a state to a text.
fn push_node(
    alloc: Global,
    text: &mut String,
    limits: Limits,
    setting: Setting,
    cluster: usize,
    number: u32,
    it: StateView,
) -> Result<(), AllocError>
    requires { RowFits limits (explained_in it).state.row }
    ensures { OnOk result (string_bytes text.new ≡ string_bytes text.old
        ++ lines_text (named_node limits setting.entry.header cluster number (naming_in setting.entry.naming) (explained_in it.entry))) }
{
    push_node_line(text, cluster, number)?;
    push_heading_cell(text, limits, setting.naming, number, it.state)?;
    push_row_table(alloc, text, setting, it)
}

/// Appends the lines of a state's row, with the end of its node, to a text.
fn push_row_table(
    alloc: Global,
    text: &mut String,
    setting: Setting,
    it: StateView,
) -> Result<(), AllocError>
    ensures { OnOk result (string_bytes text.new ≡ string_bytes text.old
        ++ lines_text (row_table setting.entry.header (naming_in setting.entry.naming) (explained_in it.entry))) }
{
    push_table(alloc, text, setting, "", "", "p", &it.state.row, it.told)?;
    push_table_end_line(text)
}

/// Appends the last line of the node of a state to a text.
fn push_table_end_line(text: &mut String) -> Result<(), AllocError>
    ensures { OnOk result (string_bytes text.new ≡ string_bytes text.old ++ line table_end) }
{
    push_table_end(text)?;
    text.push_str("\n")
}

/// Appends that line to a text, without a line feed.
#[tactic(auto, unfolding(crate::specs::Graph::table_end))]
fn push_table_end(text: &mut String) -> Result<(), AllocError>
    ensures { OnOk result (string_bytes text.new ≡ string_bytes text.old ++ table_end) }
{
    text.push_str("        </table>>];")
}

/// Appends the first line of the node of a state to a text.
fn push_node_line(text: &mut String, cluster: usize, number: u32) -> Result<(), AllocError>
    ensures { OnOk result (string_bytes text.new ≡ string_bytes text.old ++ line (node_start cluster number)) }
{
    push_node_start(text, cluster, number)?;
    text.push_str("\n")
}

/// Appends that line to a text, without a line feed.
#[tactic(auto, unfolding(crate::specs::Graph::node_start))]
fn push_node_start(text: &mut String, cluster: usize, number: u32) -> Result<(), AllocError>
    ensures { OnOk result (string_bytes text.new ≡ string_bytes text.old ++ node_start cluster number) }
{
    let name = StateName { cluster, number };
    write!(
        text,
        "        {name} [label=<<table border=\"1\" cellborder=\"0\" cellspacing=\"0\">"
    )
}

/// Appends the line of the cell of a state's heading to a text.
fn push_heading_cell(
    text: &mut String,
    limits: Limits,
    naming: StateNaming,
    number: u32,
    state: &AutomatonState,
) -> Result<(), AllocError>
    requires { RowFits limits (state_in state.now).row }
    ensures { OnOk result (string_bytes text.new ≡ string_bytes text.old ++ line (heading_cell limits (naming_in naming.entry) number (state_in state.now))) }
{
    push_heading_start(text)?;
    push_heading(text, limits, naming, number, state)?;
    text.push_str("</td></tr>\n")
}

/// Appends the beginning of the cell of a state's heading to a text.
#[tactic(auto, unfolding(crate::specs::Graph::heading_start))]
fn push_heading_start(text: &mut String) -> Result<(), AllocError>
    ensures { OnOk result (string_bytes text.new ≡ string_bytes text.old ++ heading_start) }
{
    text.push_str("        <tr><td align=\"left\" colspan=\"2\">")
}
