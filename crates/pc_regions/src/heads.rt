//! The heads of a graph: the nodes where its regions begin, but for those that find no room in a region.
ghost use Rattle.std.specs.Prelude.{◌≡◌, ◌<◌, ℕ, Some, IfOk, map, nat_le, length};
ghost use Rattle.pc_flow.specs.FlowGraph.{IsFlow};
ghost use Rattle.pc_regions.specs.models.Entering.{header_at};
ghost use Rattle.pc_regions.specs.models.Marks.{Marks, AreHeads, FindsLoop};

use crate::headers::{loop_headers, outer_loop};
use crate::in_edges::in_edge_counts;
use crate::reachable::reachable_nodes;
use pc_flow::Flow;
use std::alloc::{AllocError, Global};

/// Which nodes are heads, and the header of each loop.
#[derive(Debug, Drop)]
pub(crate) struct Heads {
    pub(crate) marks: Vec<bool>,
    pub(crate) headers: Vec<Option<u32>>,
}

/// The heads of a graph.
#[tactic(auto, using(crate::proofs::Marking::heads))]
pub(crate) fn find_heads(alloc: Global, flow: &Flow) -> Result<Heads, AllocError>
    ensures kept { IsFlow flow.now }
    ensures heads { IfOk result (λ heads. AreHeads flow.now heads.marks.items heads.headers.items) }
{
    let reachable = reachable_nodes(alloc, flow)?;
    let counts = in_edge_counts(alloc, flow, reachable.as_slice())?;
    let headers = loop_headers(alloc, flow, reachable.as_slice())?;
    let marks = head_marks(alloc, flow, &counts, &headers)?;
    Ok(Heads { marks, headers })
}

/// Marks the heads, by the number of edges that lead to each node and the headers of loops.
fn head_marks(
    alloc: Global,
    flow: &Flow,
    counts: &[u8],
    headers: &[Option<u32>],
) -> Result<Vec<bool>, AllocError>
    requires kept { IsFlow flow.now }
    requires as_many { length counts.now ≡ length flow.now.nodes }
    requires there { (loop at : ℕ) → header_at headers.now loop ≡ Some at → at < length flow.now.nodes }
    ensures { IfOk result (λ marks. Marks (map (λ count. nat_le 2 count) counts.now) marks.items flow.now.entry headers.now) }
{
    let mut marks = meeting_marks(alloc, counts)?;
    mark_heads(flow, headers, &mut marks);
    Ok(marks)
}

/// Marks the nodes to which two edges lead or more.
fn meeting_marks(alloc: Global, counts: &[u8]) -> Result<Vec<bool>, AllocError>
    ensures { IfOk result (λ marks. marks.items ≡ map (λ count. nat_le 2 count) counts.now) }
{
    counts.iter().map(|count| *count >= 2).collect(alloc)
}

/// Marks the entry and the headers.
#[tactic(auto, using(crate::proofs::Marking::marks))]
fn mark_heads(flow: &Flow, headers: &[Option<u32>], marks: &mut [bool])
    requires kept { IsFlow flow.now }
    requires as_many { length marks.old ≡ length flow.now.nodes }
    requires there { (loop at : ℕ) → header_at headers.now loop ≡ Some at → at < length flow.now.nodes }
    ensures { Marks marks.old marks.new flow.now.entry headers.now }
{
    marks[flow.entry() as usize] = true;
    for header in headers {
        if let Some(at) = *header {
            marks[at as usize] = true;
        }
    }
}

/// The loop whose header a node is, and the innermost one where several loops have that header.
///
/// It takes as many steps as loops stand round the node.
pub(crate) fn headed_loop(flow: &Flow, headers: &[Option<u32>], at: u32) -> Option<u16>
    requires kept { IsFlow flow.now }
    requires as_many { length headers.now ≡ length flow.now.loops }
    requires there { at < length flow.now.nodes }
    ensures { FindsLoop flow.now headers.now at result }
{
    let mut inner = flow.inside(at);
    while let Some(number) = inner {
        if headers[number as usize] == Some(at) {
            return Some(number);
        }
        inner = outer_loop(flow, number);
    }
    None
}
