//! The headers of loops.
ghost use Rattle.std.specs.Prelude.{◌≡◌, ◌<◌, ℕ, Option, Some, None, IfOk, IfSome, length, replicate, slice_get, slice_set};
ghost use Rattle.pc_flow.specs.FlowGraph.{IsFlow};
ghost use Rattle.pc_regions.specs.Reachable.{AreReachable};
ghost use Rattle.pc_regions.specs.models.Entering.{Rounds, header_at, lesser, Enters, EntersFrom, AreHeadersFrom};

use pc_flow::{Flow, FlowNode};
use std::alloc::{AllocError, Global};

/// The header of each loop, if it has one: the least node at which it is entered.
///
/// An edge takes as many steps as it enters and leaves loops.
pub(crate) fn loop_headers(
    alloc: Global,
    flow: &Flow,
    reachable: &[u32],
) -> Result<Vec<Option<u32>>, AllocError>
    requires kept { IsFlow flow.now }
    requires reachable { AreReachable flow.now reachable.now }
    ensures { IfOk result (λ headers. AreHeadersFrom flow.now reachable.now headers.items) }
{
    let mut headers = vec![in alloc; None; flow.loops().len()]?;
    enter_all(flow, reachable, &mut headers);
    Ok(headers)
}

/// Begins at the entry, and goes along the edges of these nodes.
#[tactic(auto, using(crate::proofs::LoopsEntered::nodes_entered))]
fn enter_all(flow: &Flow, reachable: &[u32], headers: &mut [Option<u32>])
    requires kept { IsFlow flow.now }
    requires reachable { AreReachable flow.now reachable.now }
    requires none { headers.old ≡ replicate (length flow.now.loops) None }
    ensures { AreHeadersFrom flow.now reachable.now headers.new }
{
    enter(flow, None, flow.entry(), headers);
    for from in reachable {
        enter_from(flow, *from, headers);
    }
}

/// Goes along the edges of a node.
#[tactic(auto, using(crate::proofs::LoopsEntered::edges))]
fn enter_from(flow: &Flow, from: u32, headers: &mut [Option<u32>])
    requires kept { IsFlow flow.now }
    requires as_many { length headers.old ≡ length flow.now.loops }
    requires there { from < length flow.now.nodes }
    ensures as_many { length headers.new ≡ length headers.old }
    ensures entered { EntersFrom flow.now from headers.old headers.new }
{
    let outside = flow.inside(from);
    match flow.node(from) {
        FlowNode::Op { next, .. } => enter(flow, outside, next, headers),
        FlowNode::Test { yes, no, .. } => {
            enter(flow, outside, yes, headers);
            enter(flow, outside, no, headers);
        }
        FlowNode::Stop | FlowNode::Trap { .. } => {}
    }
}

/// Goes along an edge to a node from inside a loop, or from inside none.
fn enter(flow: &Flow, from: Option<u16>, to: u32, headers: &mut [Option<u32>])
    requires kept { IsFlow flow.now }
    requires as_many { length headers.old ≡ length flow.now.loops }
    requires there { to < length flow.now.nodes }
    requires from_there { IfSome from (λ loop. loop < length flow.now.loops) }
    ensures as_many { length headers.new ≡ length headers.old }
    ensures entered { (inner : Option ℕ) → slice_get flow.now.inside to ≡ Some inner → Enters flow.now.loops inner from to headers.old headers.new }
{
    let mut inner = flow.inside(to);
    let mut outside = from;
    while let Some(number) = inner {
        match outside {
            Some(other) if number <= other => {
                if number == other {
                    return;
                }
                outside = outer_loop(flow, other);
            }
            _ => {
                lower(headers, number, to);
                inner = outer_loop(flow, number);
            }
        }
    }
}

/// Makes a node the header of a loop, unless it has a lesser one.
fn lower(headers: &mut [Option<u32>], number: u16, to: u32)
    requires { number < length headers.old }
    ensures { headers.new ≡ slice_set headers.old number (Some (lesser (header_at headers.old number) to)) }
{
    let header = match headers[number as usize] {
        Some(header) => header.min(to),
        None => to,
    };
    headers[number as usize] = Some(header);
}

/// The loop round a loop.
pub(crate) fn outer_loop(flow: &Flow, number: u16) -> Option<u16>
    requires { number < length flow.now.loops }
    ensures { Rounds flow.now.loops number result }
{
    flow.loops().as_slice()[number as usize].outer
}
