//! The edges of the graph, from each leaf to where it leads.
ghost use Rattle.std.specs.Prelude.{◌≡◌, ◌++◌, IfSome, OnOk, Some, option_map, string_bytes};
ghost use Rattle.pc_word.specs.Line.{line};
ghost use Rattle.pc_word.specs.StoredRow.{row_in};
ghost use Rattle.pc_told.specs.Tellings.{telling_in};
ghost use Rattle.pc_explain.specs.EachState.{explained_in};
ghost use Rattle.pc_view.specs.Listing.{lines_text};
ghost use Rattle.pc_explain.specs.Explained.{schedule_in, HasEach};
ghost use Rattle.pc_explain_graph.specs.Graph.{state_name, region_name, target_name, edge_label, edge_line, row_edges, state_edges, loop_edges};

use pc_automaton::AutomatonLeaf;
use pc_explain::{Schedule, StateView};
use pc_report::trap_words;
use pc_told::ToldRow;
use pc_word::RowTree;
use std::alloc::{AllocError, Global};
use std::fmt;

/// The name of a state's node, which is to be written: by the number of its loop's cluster and its own.
#[derive(Clone, Copy)]
pub(crate) struct StateName {
    pub cluster: usize,
    pub number: u32,
}

impl fmt::Display for StateName {
    ghost output = { λ name. Some (state_name name.cluster name.number) };

    #[tactic(auto, unfolding(crate::specs::Graph::state_name))]
    fn fmt<W: fmt::Write>(&self, f: &mut fmt::Formatter<W>) -> fmt::Result {
        let (cluster, number) = (self.cluster, self.number);
        write!(f, "s{cluster}_{number}")
    }
}

/// Appends the edges of a loop to a text. `region` is its header, and `cluster` the number of its cluster.
pub(crate) fn push_loop_edges(
    alloc: Global,
    text: &mut String,
    region: u32,
    cluster: usize,
    schedule: &Option<Schedule>,
) -> Result<(), AllocError>
    requires { IfSome (option_map schedule_in schedule.now) HasEach }
    ensures { OnOk result (string_bytes text.new ≡ string_bytes text.old ++ lines_text (loop_edges region cluster (option_map schedule_in schedule.now))) }
{
    match schedule {
        None => Ok(()),
        Some(schedule) => push_edges(alloc, text, region, cluster, schedule),
    }
}

/// Appends the edges of the states of a schedule to a text.
fn push_edges(
    alloc: Global,
    text: &mut String,
    region: u32,
    cluster: usize,
    schedule: &Schedule,
) -> Result<(), AllocError>
    requires { HasEach (schedule_in schedule.now) }
    ensures { OnOk result (string_bytes text.new ≡ string_bytes text.old ++ lines_text (loop_edges region cluster (Some (schedule_in schedule.now)))) }
{
    for number in 0..schedule.count() {
        let from = StateName { cluster, number };
        push_state_edges(alloc, text, region, from, schedule.state(number))?;
    }
    Ok(())
}

/// Appends the edges of the state `from` to a text.
fn push_state_edges(
    alloc: Global,
    text: &mut String,
    region: u32,
    from: StateName,
    it: StateView,
) -> Result<(), AllocError>
    ensures { OnOk result (string_bytes text.new ≡ string_bytes text.old ++ lines_text (state_edges region from.cluster from.number (explained_in it.entry))) }
{
    push_row_edges(alloc, text, region, from, "p", &it.state.row, it.told)
}

/// Appends the edges of a tree in the row of the state `from` to a text. `port` is the name of the port of its leaf, if it has one
/// alone.
fn push_row_edges(
    alloc: Global,
    text: &mut String,
    region: u32,
    from: StateName,
    port: &str,
    row: &RowTree<AutomatonLeaf>,
    told: &ToldRow,
) -> Result<(), AllocError>
    ensures { OnOk result (string_bytes text.new ≡ string_bytes text.old
        ++ lines_text (row_edges region from.cluster from.number port.now (row_in (λ leaf. leaf) row.now) (telling_in told.now))) }
{
    match (row, told) {
        (RowTree::Step { next, .. }, ToldRow::Step { next: below, .. }) => {
            push_row_edges(alloc, text, region, from, port, next, below)
        }
        (
            RowTree::Test { yes, no, .. },
            ToldRow::Test {
                yes: one,
                no: other,
                ..
            },
        ) => {
            let way = format!(in alloc; "{port}y")?;
            push_row_edges(alloc, text, region, from, way.as_str(), yes, one)?;
            let way = format!(in alloc; "{port}n")?;
            push_row_edges(alloc, text, region, from, way.as_str(), no, other)
        }
        (RowTree::Leaf { leaf }, ToldRow::Leaf { advance }) => {
            push_edge(text, region, from, port, leaf, *advance)
        }
        _ => Ok(()),
    }
}

/// Appends the edge of a leaf to a text, from its port.
#[tactic(auto, unfolding(crate::specs::Graph::edge_line))]
fn push_edge(
    text: &mut String,
    region: u32,
    from: StateName,
    port: &str,
    leaf: &AutomatonLeaf,
    advance: Option<u32>,
) -> Result<(), AllocError>
    ensures { OnOk result (string_bytes text.new ≡ string_bytes text.old ++ line (edge_line region from.cluster from.number port.now leaf.now advance)) }
{
    write!(text, "    {from}:{port} -> ")?;
    push_target(text, region, from.cluster, leaf)?;
    push_label(text, advance)?;
    text.push_str(";\n")
}

/// Appends the name of the node to which a leaf of a loop leads to a text.
fn push_target(
    text: &mut String,
    header: u32,
    cluster: usize,
    leaf: &AutomatonLeaf,
) -> Result<(), AllocError>
    ensures { OnOk result (string_bytes text.new ≡ string_bytes text.old ++ target_name header cluster leaf.now) }
{
    match leaf {
        AutomatonLeaf::To { state, .. } => push_name(text, cluster, *state),
        AutomatonLeaf::Out { region, .. } => push_region_name(text, header, cluster, *region),
        AutomatonLeaf::Stop => text.push_str("stop"),
        AutomatonLeaf::Trap { kind, line } => {
            let kind = trap_words(*kind);
            write!(text, "\"trap: {kind} at line {line}\"")
        }
    }
}

/// Appends the name of a region's node to a text, or, where it is the header of the loop, that of the loop's first state.
#[tactic(auto, unfolding(crate::specs::Graph::region_name))]
fn push_region_name(
    text: &mut String,
    header: u32,
    cluster: usize,
    region: u32,
) -> Result<(), AllocError>
    ensures { OnOk result (string_bytes text.new ≡ string_bytes text.old ++ region_name header cluster region) }
{
    if region == header {
        return push_name(text, cluster, 0);
    }
    write!(text, "\"region {region}\"")
}

/// Appends the name of a state's node to a text.
fn push_name(text: &mut String, cluster: usize, number: u32) -> Result<(), AllocError>
    ensures { OnOk result (string_bytes text.new ≡ string_bytes text.old ++ state_name cluster number) }
{
    let name = StateName { cluster, number };
    write!(text, "{name}")
}

/// Appends the label of an edge, the first iteration of which anything is left, to a text, if anything is.
fn push_label(text: &mut String, advance: Option<u32>) -> Result<(), AllocError>
    ensures { OnOk result (string_bytes text.new ≡ string_bytes text.old ++ edge_label advance) }
{
    match advance {
        None => Ok(()),
        Some(advance) => write!(text, " [label=\"from +{advance}\"]"),
    }
}
