//! Whether every edge of a graph keeps a map of what is known.
ghost use Rattle.std.specs.Prelude.{◌≡◌, ◌<◌, ℕ, None, true, length};
ghost use Rattle.pc_ranges.specs.Interval.{interval_of};
ghost use Rattle.pc_ranges.specs.Bounds.{IsKept, bounds_at, bounds_if};
ghost use Rattle.pc_ranges.specs.models.Keeping.{is_inside, is_latest, has_zero, IsVoid, Implies, BeginsWithin, GoesFrom, GoesOn, after_item, on_side};

use crate::bounds::{Bounds, after_item, on_side};
use crate::interval::{Interval, interval_at};
use pc_flow::{Flow, FlowNode};
use pc_word::{Item, Operand};

/// Whether every edge of a graph keeps a map. No edge that keeps it only for what stands at other
/// nodes is found to do so.
#[tactic(auto)]
pub(crate) fn is_kept(flow: &Flow, map: &[Bounds]) -> bool
    ensures { result ≡ true → IsKept flow.now map.now }
{
    if !begins(flow, map) {
        return false;
    }
    for at in 0..flow.count() {
        if !goes_on(flow, map, at) {
            return false;
        }
    }
    true
}

/// Whether the start is within what is known at the entry.
#[tactic(auto, using(crate::proofs::Kept::start_laws))]
fn begins(flow: &Flow, map: &[Bounds]) -> bool
    ensures { result ≡ true → BeginsWithin flow.now map.now }
{
    match map.get(flow.entry() as usize) {
        Some(bounds) => is_unknown(bounds.latest) && hold_zero(&bounds.intervals),
        None => false,
    }
}

/// Whether no latest item is known.
fn is_unknown(latest: Option<u32>) -> bool
    ensures { result ≡ true → latest ≡ None }
{
    match latest {
        None => true,
        Some(_) => false,
    }
}

/// Whether 0 lies in each interval.
fn hold_zero(intervals: &[Interval]) -> bool
    ensures { result ≡ true → (variable : ℕ) → variable < length intervals.now → has_zero (interval_of intervals.now variable) ≡ true }
{
    for variable in 0..intervals.len() {
        if !interval_at(intervals, variable).has_zero() {
            return false;
        }
    }
    true
}

/// Whether the edges of a node keep a map.
#[tactic(auto, using(crate::proofs::Kept::known_laws))]
fn goes_on(flow: &Flow, map: &[Bounds], at: u32) -> bool
    requires { at < length flow.now.nodes }
    ensures { result ≡ true → GoesOn flow.now map.now at }
{
    match map.get(at as usize) {
        Some(bounds) => goes_from(flow, bounds, map, at),
        None => false,
    }
}

/// Whether they do, where so much is known at the node.
#[tactic(auto, using(crate::proofs::Kept::node_laws))]
fn goes_from(flow: &Flow, bounds: &Bounds, map: &[Bounds], at: u32) -> bool
    requires { at < length flow.now.nodes }
    ensures { result ≡ true → GoesFrom flow.now bounds.now map.now at }
{
    match flow.node(at) {
        FlowNode::Op { item, next } => item_leads(bounds, at, item, map, next),
        FlowNode::Test { on, yes, no, .. } => {
            if !side_leads(flow, bounds, on, true, map, yes) {
                return false;
            }
            side_leads(flow, bounds, on, false, map, no)
        }
        FlowNode::Stop | FlowNode::Trap { .. } => true,
    }
}

/// Whether what is known behind an item is enough for what is known at the next node.
fn item_leads(bounds: &Bounds, at: u32, item: Item, map: &[Bounds], next: u32) -> bool
    ensures { result ≡ true → Implies (after_item bounds.now at item) (bounds_at map.now next) }
{
    leads(&after_item(bounds, at, item), map, next)
}

/// Whether what is known on a side of a test is enough for what is known at the node there.
fn side_leads(
    flow: &Flow,
    bounds: &Bounds,
    on: Operand,
    side: bool,
    map: &[Bounds],
    next: u32,
) -> bool
    ensures { result ≡ true → Implies (on_side flow.now bounds.now on side) (bounds_at map.now next) }
{
    leads(&on_side(flow, bounds, on, side), map, next)
}

/// Whether what is known behind a node is enough for what is known at another one.
#[tactic(auto, using(crate::proofs::Kept::target_laws))]
fn leads(bounds: &Bounds, map: &[Bounds], next: u32) -> bool
    ensures { result ≡ true → Implies bounds.now (bounds_at map.now next) }
{
    match map.get(next as usize) {
        Some(target) => implies(bounds, target),
        None => true,
    }
}

/// Whether what is known is enough for what is to be known: no state is within it, or each interval
/// lies inside of the other.
#[tactic(auto)]
fn implies(bounds: &Bounds, target: &Bounds) -> bool
    ensures { result ≡ true → Implies bounds.now target.now }
{
    if is_void(&bounds.intervals) {
        return true;
    }
    if !is_latest(bounds.latest, target.latest) {
        return false;
    }
    are_inside(&bounds.intervals, &target.intervals)
}

/// Whether the latest item is the one that is to be known, if any is.
fn is_latest(known: Option<u32>, wanted: Option<u32>) -> bool
    ensures { result ≡ is_latest known wanted }
{
    match (known, wanted) {
        (_, None) => true,
        (Some(known), Some(wanted)) => known == wanted,
        (None, Some(_)) => false,
    }
}

/// Whether no number lies in one of the intervals.
pub(crate) fn is_void(intervals: &[Interval]) -> bool
    ensures { result ≡ true → IsVoid intervals.now }
{
    for variable in 0..intervals.len() {
        if interval_at(intervals, variable).is_empty() {
            return true;
        }
    }
    false
}

/// Whether each interval lies inside of the other of the same variable.
fn are_inside(intervals: &[Interval], others: &[Interval]) -> bool
    ensures { result ≡ true → (variable : ℕ) → variable < length others.now → is_inside (interval_of intervals.now variable) (interval_of others.now variable) ≡ true }
{
    for variable in 0..others.len() {
        let one = interval_at(intervals, variable);
        let other = interval_at(others, variable);
        if !one.is_inside(other) {
            return false;
        }
    }
    true
}
