//! A window is filled with what a row does.
use crate::ahead::Ahead;
use crate::filling::fill;
use crate::following::{Care, Flow};
use crate::parts::{Part, What};
use crate::wanted::{Wants, wants_of};
use crate::ways::ways_of;
use pc_cert::Step;
use pc_machine::Tree;
use pc_matching::Fact;
use std::alloc::{AllocError, Global};

/// What came of filling a window: the parts then, the steps, what of the row was not found.
#[derive(Drop)]
pub(crate) struct Trial {
    pub(crate) parts: Vec<Part>,
    pub(crate) steps: Vec<Step>,
    pub(crate) wants: Wants,
    /// The blocks from which something came.
    pub(crate) blocks: Vec<u32>,
}

/// A row's items and tests, and the facts by which they are looked for.
#[derive(Clone, Copy)]
pub(crate) struct Goal<'a> {
    pub(crate) facts: &'a [Fact],
    pub(crate) row: &'a Tree,
    pub(crate) flow: Flow<'a>,
    pub(crate) care: Care,
}

/// Fills a window with what a row does.
pub(crate) fn tried(alloc: Global, ahead: &Ahead, goal: Goal) -> Result<Trial, AllocError> {
    let mut parts = Vec::from_slice(alloc, ahead.parts.as_slice())?;
    let mut wants = wants_of(alloc, goal.facts, goal.row)?;
    let mut steps = Vec::from_slice(alloc, ahead.steps.as_slice())?;
    let mut brings = Vec::new(alloc);
    let names = &ahead.window.names;
    let mut blocks = Vec::new(alloc);
    fill(
        alloc,
        &mut parts,
        names,
        &mut wants,
        goal.flow,
        goal.care,
        &mut steps,
        &mut brings,
        &mut blocks,
    )?;
    steps.extend_from_slice(brings.as_slice())?;
    Ok(Trial {
        parts,
        steps,
        wants,
        blocks,
    })
}

/// The number of items and tests of a row that were not found.
pub(crate) fn missing(wants: &Wants) -> usize {
    let mut count = 0usize;
    for want in wants.items.as_slice() {
        if !want.done {
            count = count.saturating_add(1);
        }
    }
    for segment in wants.segments.as_slice() {
        if segment.on.is_some() && !segment.done {
            count = count.saturating_add(1);
        }
    }
    count
}

/// Whether something of a stretch of the row, or of those above it, was not found.
fn lacks(wants: &Wants, segment: u32) -> bool {
    let mut number = segment;
    for _ in 0..wants.segments.len() {
        for want in wants.items.as_slice() {
            if want.segment == number && !want.done {
                return true;
            }
        }
        let Some(it) = wants.segments.get(number as usize) else {
            return false;
        };
        if it.on.is_some() && !it.done {
            return true;
        }
        match it.above {
            None => return false,
            Some(above) => number = above,
        }
    }
    false
}

/// For each leaf, in order, whether something is not found on its path.
pub(crate) fn lacking_leaves(alloc: Global, trial: &Trial) -> Result<Vec<bool>, AllocError> {
    let parts = trial.parts.as_slice();
    let ways = ways_of(alloc, parts, trial.wants.segments.as_slice())?;
    let mut lacking = Vec::new(alloc);
    for at in 0..parts.len() {
        if matches!(parts[at].what, What::Stub(_) | What::End) {
            let segment = match ways.get(at) {
                None => None,
                Some(way) => way.segment,
            };
            lacking.push(match segment {
                None => false,
                Some(segment) => lacks(&trial.wants, segment),
            })?;
        }
    }
    Ok(lacking)
}
