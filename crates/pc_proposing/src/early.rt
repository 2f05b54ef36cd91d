//! Regions are entered in a row that rows need which come next.
ghost use Rattle.pc_word.specs.Ranges.{AreLimits};
ghost use Rattle.pc_settling.specs.Stored.{IsLeft};

use crate::ahead::{Ahead, opened, stays};
use crate::looking::{any, blocks_of, choose_marked};
use crate::parts::{What, number_of};
use crate::start::Start;
use crate::trying::{Goal, Trial, missing, tried};
use crate::wanted::Segment;
use crate::ways::{Way, ways_of};
use pc_word::OutOfMemory;
use std::alloc::{AllocError, Global};

/// Whether a leaf stands below something behind the front, and leads to a row before which regions are entered.
fn leads_early(ways: &[Way], segments: &[Segment], at: usize, early: &[bool]) -> bool {
    let Some(way) = ways.get(at) else {
        return false;
    };
    if way.top == Some(number_of(at)) {
        return false;
    }
    let Some(number) = way.segment else {
        return false;
    };
    match segments.get(number as usize) {
        None => false,
        Some(segment) => match segment.leads_to {
            None => false,
            Some(row) => early.get(row as usize) == Some(&true),
        },
    }
}

/// For each leaf, in order, whether it leads to a row before which regions are entered, and is a stub of a region that
/// heads a loop, which stands below something else.
fn early_leaves(
    alloc: Global,
    start: Start,
    ahead: &Ahead,
    trial: &Trial,
    early: &[bool],
) -> Result<Vec<bool>, AllocError> {
    let parts = trial.parts.as_slice();
    let segments = trial.wants.segments.as_slice();
    let ways = ways_of(alloc, parts, segments)?;
    let mut marks = Vec::new(alloc);
    for at in 0..parts.len() {
        let part = &parts[at];
        match part.what {
            What::Stub(region) => {
                let heads = start.table.innermost_loop(region).is_some();
                let mark = heads
                    && !stays(start, part, ahead.window.inside)
                    && leads_early(ways.as_slice(), segments, at, early);
                marks.push(mark)?;
            }
            What::End => marks.push(false)?,
            _ => {}
        }
    }
    Ok(marks)
}

/// A window and its trial, with the regions entered that rows need which come next. It is as it was where that would
/// lose something of the row.
pub(crate) fn with_early(
    alloc: Global,
    start: Start,
    ahead: Ahead,
    goal: Goal,
    trial: Trial,
) -> Result<(Ahead, Trial), OutOfMemory>
    requires limits { AreLimits start.limits }
    requires left { IsLeft start.left.now }
{
    let marks = early_leaves(alloc, start, &ahead, &trial, goal.flow.early)?;
    let mut blocks = blocks_of(alloc, &ahead)?;
    let chosen = choose_marked(alloc, &ahead, start, true, marks.as_slice(), &mut blocks)?;
    if !any(chosen.as_slice()) {
        return Ok((ahead, trial));
    }
    let Some(entered) = opened(alloc, start, &ahead, chosen.as_slice())? else {
        return Ok((ahead, trial));
    };
    let again = tried(alloc, &entered, goal)?;
    if missing(&again.wants) > missing(&trial.wants) {
        return Ok((ahead, trial));
    }
    Ok((entered, again))
}
