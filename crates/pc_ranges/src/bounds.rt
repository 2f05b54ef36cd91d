//! What is known of the variables where a graph comes to a node.
ghost use Rattle.std.specs.Prelude.{◌≡◌, slice_set};
ghost use Rattle.pc_ranges.specs.models.Keeping.{given, written, stays_done, after_item, with_operand, narrowed, compared, latest_node, on_side};

use crate::interval::{Interval, operand_interval};
use crate::narrowing::{narrowed_left, narrowed_right, tested};
use crate::over::over;
use pc_flow::{Flow, FlowNode};
use pc_word::{Item, MOST_SCALARS, MOST_TEMPORARIES, OpCode, Operand};

/// How many variables a graph may name.
pub(crate) const VARIABLES: usize = MOST_SCALARS as usize + MOST_TEMPORARIES as usize;

/// An interval for each variable, and the number of the item that was just done, where it has an
/// operator and did not read its own variable.
#[derive(Clone, Copy, Debug)]
pub(crate) struct Bounds {
    pub intervals: [Interval; VARIABLES],
    pub latest: Option<u32>,
}

/// Puts an interval in the place of a variable's.
fn put(intervals: &mut [Interval], variable: u32, interval: Interval)
    ensures { intervals.new ≡ slice_set intervals.old variable interval }
{
    if (variable as usize) < intervals.len() {
        intervals[variable as usize] = interval;
    }
}

/// Puts an interval in the place of an operand's, if that is a variable.
fn put_operand(intervals: &mut [Interval], operand: Operand, interval: Interval)
    ensures { intervals.new ≡ with_operand operand interval intervals.old }
{
    match operand {
        Operand::Name(variable) => put(intervals, variable, interval),
        Operand::Lit(_) => {}
    }
}

/// The interval of the word that an item writes.
fn given(intervals: &[Interval], item: Item) -> Interval
    ensures { result ≡ given intervals.now item }
{
    match item {
        Item::Bin {
            op,
            left,
            right,
            ..
        } => over(
            op,
            operand_interval(intervals, left),
            operand_interval(intervals, right),
        ),
        Item::Copy { from, .. } => operand_interval(intervals, from),
        Item::More { .. } => Interval { low: 0, high: 1 },
        Item::Load { .. } | Item::Store { .. } | Item::Print { .. } | Item::Read { .. } => {
            Interval::ALL
        }
    }
}

/// Whether an item has an operator and does not read its own variable.
fn stays_done(item: Item) -> bool
    ensures { result ≡ stays_done item }
{
    match item {
        Item::Bin {
            dest,
            left,
            right,
            ..
        } => !left.is_name(dest) && !right.is_name(dest),
        _ => false,
    }
}

/// What is known behind the item of a node.
pub(crate) fn after_item(bounds: &Bounds, at: u32, item: Item) -> Bounds
    ensures { result ≡ after_item bounds.now at item }
{
    let mut intervals = bounds.intervals;
    if let Some(dest) = item.dest() {
        put(&mut intervals, dest, given(&bounds.intervals, item));
    }
    let latest = if stays_done(item) { Some(at) } else { None };
    Bounds { intervals, latest }
}

/// Narrows the two operands of a comparison that holds, or does not.
fn narrow(intervals: &mut [Interval], op: OpCode, left: Operand, right: Operand, side: bool)
    ensures { intervals.new ≡ narrowed op left right side intervals.old }
{
    let a = operand_interval(intervals, left);
    let b = operand_interval(intervals, right);
    put_operand(intervals, left, narrowed_left(op, side, a, b));
    put_operand(intervals, right, narrowed_right(op, side, a, b));
}

/// Narrows the operands of the latest item, if that wrote what is tested.
fn compare(intervals: &mut [Interval], latest: FlowNode, on: Operand, side: bool)
    ensures { intervals.new ≡ compared (Some latest) on side intervals.old }
{
    if let FlowNode::Op {
        item: Item::Bin {
            op,
            dest,
            left,
            right,
        },
        ..
    } = latest
    {
        if on.is_name(dest) {
            narrow(intervals, op, left, right, side);
        }
    }
}

/// The node of the latest item, if it is known.
fn latest_node(flow: &Flow, latest: Option<u32>) -> Option<FlowNode>
    ensures { result ≡ latest_node flow.now.nodes latest }
{
    match latest {
        Some(from) => {
            if from < flow.count() {
                Some(flow.node(from))
            } else {
                None
            }
        }
        None => None,
    }
}

/// What is known on a side of a test, the one where its operand holds or the other.
pub(crate) fn on_side(flow: &Flow, bounds: &Bounds, on: Operand, side: bool) -> Bounds
    ensures { result ≡ on_side flow.now bounds.now on side }
{
    let mut intervals = bounds.intervals;
    put_operand(
        &mut intervals,
        on,
        tested(side, operand_interval(&bounds.intervals, on)),
    );
    if let Some(node) = latest_node(flow, bounds.latest) {
        compare(&mut intervals, node, on, side);
    }
    Bounds {
        intervals,
        latest: None,
    }
}
