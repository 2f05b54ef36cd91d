//! A map of what is known at each node, found by visiting nodes until nothing grows. Nothing rests on it
//! until it is checked.
use crate::bounds::{Bounds, VARIABLES, after_item, on_side};
use crate::interval::Interval;
use crate::keeping::is_void;
use crate::marks::{mark_above, mark_below, marks_of};
use pc_flow::{Flow, FlowNode};
use std::alloc::{AllocError, Global};

/// After so many steps a node the map is given up.
const MOST_STEPS: usize = 1_000;

/// After so many visits what still grows goes to the ends of words.
const MOST_VISITS: u8 = 60;

/// What is known where no state comes.
const NOWHERE: Bounds = Bounds {
    intervals: [Interval::NONE; VARIABLES],
    latest: None,
};

/// What is known at the start.
const START: Bounds = Bounds {
    intervals: [Interval { low: 0, high: 0 }; VARIABLES],
    latest: None,
};

/// How often what is known at a node grew, how many edges lead there, the node's place in the order
/// of the ranks, and whether it is to be visited.
#[derive(Clone, Copy, Debug)]
struct Visits {
    count: u8,
    edges: u8,
    place: usize,
    pending: bool,
}

/// How an interval grows.
#[derive(Clone, Copy, Debug, PartialEq, Eq)]
enum Growth {
    /// As far as it must.
    Least,
    /// To the next mark.
    ToMark,
    /// To the end of words.
    ToEnd,
}

/// A map of what is known at each node of a graph.
pub(crate) fn made(alloc: Global, flow: &Flow) -> Result<Vec<Bounds>, AllocError> {
    let count = flow.count() as usize;
    let marks = marks_of(alloc, flow)?;
    let order = order_of(alloc, flow)?;
    let mut map = vec![in alloc; NOWHERE; count]?;
    let none = Visits {
        count: 0,
        edges: 0,
        place: 0,
        pending: false,
    };
    let mut visits = vec![in alloc; none; count]?;
    count_edges(flow, visits.as_mut_slice());
    join(
        marks.as_slice(),
        map.as_mut_slice(),
        visits.as_mut_slice(),
        flow.entry(),
        &START,
    );
    note_places(order.as_slice(), visits.as_mut_slice());
    visit_all(
        flow,
        order.as_slice(),
        marks.as_slice(),
        map.as_mut_slice(),
        visits.as_mut_slice(),
    );
    Ok(map)
}

/// The rank and the number of each node, in the order of the ranks.
fn order_of(alloc: Global, flow: &Flow) -> Result<Vec<(u32, u32)>, AllocError> {
    let mut order = Vec::with_capacity(alloc, flow.count() as usize)?;
    for at in 0..flow.count() {
        order.push((flow.rank(at), at))?;
    }
    order.sort_unstable();
    Ok(order)
}

/// Counts the edges that lead to each node; the graph's beginning is one.
fn count_edges(flow: &Flow, visits: &mut [Visits]) {
    count_edge(visits, flow.entry());
    for at in 0..flow.count() {
        match flow.node(at) {
            FlowNode::Op { next, .. } => count_edge(visits, next),
            FlowNode::Test { yes, no, .. } => {
                count_edge(visits, yes);
                count_edge(visits, no);
            }
            FlowNode::Stop | FlowNode::Trap { .. } => {}
        }
    }
}

/// Counts an edge that leads to a node.
fn count_edge(visits: &mut [Visits], node: u32) {
    if let Some(visit) = visits.get_mut(node as usize) {
        visit.edges = visit.edges.saturating_add(1);
    }
}

/// Notes the place of each node in the order.
fn note_places(order: &[(u32, u32)], visits: &mut [Visits]) {
    for (place, (_, at)) in order.iter().enumerate() {
        if let Some(visit) = visits.get_mut(*at as usize) {
            visit.place = place;
        }
    }
}

/// Visits nodes until none is left to be visited, those of higher ranks first: where a visit leads
/// back up, it goes on from there.
fn visit_all(
    flow: &Flow,
    order: &[(u32, u32)],
    marks: &[i32],
    map: &mut [Bounds],
    visits: &mut [Visits],
) {
    let mut left = order.len();
    let mut steps = order.len().saturating_mul(MOST_STEPS);
    while left > 0 && steps > 0 {
        left -= 1;
        steps -= 1;
        if let Some((_, at)) = order.get(left) {
            if is_pending(visits, *at) {
                left = left.max(visit(flow, marks, map, visits, *at));
            }
        }
    }
}

/// Whether a node is to be visited; from now on it is not.
fn is_pending(visits: &mut [Visits], at: u32) -> bool {
    match visits.get_mut(at as usize) {
        Some(visit) => std::mem::replace(&mut visit.pending, false),
        None => false,
    }
}

/// Joins what is known behind a node to what is known at the nodes to which its edges lead. The place
/// above all that are to be visited for it.
fn visit(flow: &Flow, marks: &[i32], map: &mut [Bounds], visits: &mut [Visits], at: u32) -> usize {
    if at >= flow.count() {
        return 0;
    }
    let bounds = match map.get(at as usize) {
        Some(bounds) => *bounds,
        None => return 0,
    };
    match flow.node(at) {
        FlowNode::Op { item, next } => {
            join(marks, map, visits, next, &after_item(&bounds, at, item))
        }
        FlowNode::Test { on, yes, no, .. } => {
            let first = join(marks, map, visits, yes, &on_side(flow, &bounds, on, true));
            let second = join(marks, map, visits, no, &on_side(flow, &bounds, on, false));
            first.max(second)
        }
        FlowNode::Stop | FlowNode::Trap { .. } => 0,
    }
}

/// Joins bounds to those of a node. The place above it, if it is to be visited, and else 0.
fn join(
    marks: &[i32],
    map: &mut [Bounds],
    visits: &mut [Visits],
    at: u32,
    bounds: &Bounds,
) -> usize {
    if is_void(&bounds.intervals) {
        return 0;
    }
    if let Some(visit) = visits.get_mut(at as usize) {
        if let Some(known) = map.get_mut(at as usize) {
            join_at(marks, known, visit, bounds);
            if visit.pending {
                return visit.place.saturating_add(1);
            }
        }
    }
    0
}

/// Joins bounds to others, which are to be visited if that changed them.
fn join_at(marks: &[i32], known: &mut Bounds, visit: &mut Visits, bounds: &Bounds) {
    let mut changed = grow_all(
        marks,
        growth_at(*visit),
        &mut known.intervals,
        &bounds.intervals,
    );
    if visit.count == 0 {
        known.latest = bounds.latest;
    } else if known.latest.is_some() && known.latest != bounds.latest {
        known.latest = None;
        changed = true;
    }
    if changed || visit.count == 0 {
        visit.count = visit.count.saturating_add(1);
        visit.pending = true;
    }
}

/// How intervals grow at a node.
fn growth_at(visit: Visits) -> Growth {
    if visit.edges < 2 || visit.count == 0 {
        Growth::Least
    } else if visit.count < MOST_VISITS {
        Growth::ToMark
    } else {
        Growth::ToEnd
    }
}

/// Lets each interval take in another one of the same variable. Whether any grew.
fn grow_all(marks: &[i32], growth: Growth, known: &mut [Interval], others: &[Interval]) -> bool {
    let mut any = false;
    for (interval, other) in known.iter_mut().zip(others.iter()) {
        if !other.is_inside(*interval) {
            *interval = grown(marks, growth, *interval, *other);
            any = true;
        }
    }
    any
}

/// An interval that takes in another one.
fn grown(marks: &[i32], growth: Growth, known: Interval, other: Interval) -> Interval {
    Interval {
        low: if other.low < known.low {
            lower(marks, growth, other.low)
        } else {
            known.low
        },
        high: if known.high < other.high {
            higher(marks, growth, other.high)
        } else {
            known.high
        },
    }
}

/// A lower end, rounded outward.
fn lower(marks: &[i32], growth: Growth, word: i32) -> i32 {
    match growth {
        Growth::Least => word,
        Growth::ToMark => mark_below(marks, word),
        Growth::ToEnd => i32::MIN,
    }
}

/// A higher end, rounded outward.
fn higher(marks: &[i32], growth: Growth, word: i32) -> i32 {
    match growth {
        Growth::Least => word,
        Growth::ToMark => mark_above(marks, word),
        Growth::ToEnd => i32::MAX,
    }
}
