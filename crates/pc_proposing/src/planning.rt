//! The steps of a row: what it does is brought into the front, also from stubs that are opened.
ghost use Rattle.pc_word.specs.Ranges.{AreLimits};
ghost use Rattle.pc_settling.specs.Stored.{IsLeft};

use crate::ahead::{Ahead, begun};
use crate::early::with_early;
use crate::following::Care;
use crate::looking::further;
use crate::start::Start;
use crate::trying::{Goal, Trial, missing, tried};
use pc_cert::{Opening, Step};
use pc_word::OutOfMemory;
use std::alloc::Global;

/// How often a row looks ahead.
const MOST_ROUNDS: u32 = 24;

/// The steps that are planned for a row, how much of the row was not found, and the loop of a stub that was entered in
/// a region which was opened before.
#[derive(Drop)]
struct Attempt {
    steps: Vec<Step>,
    missing: usize,
    deeper: Option<u16>,
}

/// What is planned for a row that was tried.
fn attempt_of(ahead: Ahead, trial: Trial) -> Attempt {
    Attempt {
        missing: missing(&trial.wants),
        steps: trial.steps,
        deeper: ahead.deeper,
    }
}

/// What is planned for a row, with as many stubs opened as it needs.
fn attempted(alloc: Global, start: Start, goal: Goal) -> Result<Option<Attempt>, OutOfMemory>
    requires limits { AreLimits start.limits }
    requires left { IsLeft start.left.now }
{
    let Some(mut ahead) = begun(alloc, start)? else {
        return Ok(None);
    };
    let mut trial = tried(alloc, &ahead, goal)?;
    for _ in 0..MOST_ROUNDS {
        if missing(&trial.wants) == 0 {
            break;
        }
        let Some(next) = further(alloc, start, &ahead, goal, &trial)? else {
            break;
        };
        ahead = next;
        trial = tried(alloc, &ahead, goal)?;
    }
    let (ahead, trial) = with_early(alloc, start, ahead, goal, trial)?;
    Ok(Some(attempt_of(ahead, trial)))
}

/// The one of two that finds more of the row; the first, if both find as much.
fn better(one: Attempt, other: Option<Attempt>) -> Attempt {
    match other {
        Some(other) if other.missing < one.missing => other,
        _ => one,
    }
}

/// The same goal with this care.
fn with_care<'a>(goal: Goal<'a>, care: Care) -> Goal<'a> {
    Goal {
        facts: goal.facts,
        row: goal.row,
        flow: goal.flow,
        care,
    }
}

/// What is planned for a row: with care, or else with less, if more of the row is found so.
fn with_less_care(alloc: Global, start: Start, goal: Goal) -> Result<Option<Attempt>, OutOfMemory>
    requires limits { AreLimits start.limits }
    requires left { IsLeft start.left.now }
{
    let Some(mut best) = attempted(alloc, start, goal)? else {
        return Ok(None);
    };
    for care in [Care::Matters, Care::First] {
        if best.missing > 0 && care != goal.care {
            let other = attempted(alloc, start, with_care(goal, care))?;
            best = better(best, other);
        }
    }
    Ok(Some(best))
}

/// The steps of a row, and the loop of its window.
#[derive(Drop)]
pub(crate) struct RowPlan {
    pub(crate) steps: Vec<Step>,
    pub(crate) inside: Option<u16>,
}

/// The loop into which a plan enters deeper than by one region, if it is another than that of the window.
fn other_loop(first: &Attempt, inside: Option<u16>) -> Option<u16> {
    if first.deeper == inside {
        return None;
    }
    first.deeper
}

/// What is planned for a row in another loop, if no less of the row is found there than this.
fn planned_in(
    alloc: Global,
    start: Start,
    goal: Goal,
    inside: Option<u16>,
    missing: usize,
) -> Result<Option<Attempt>, OutOfMemory>
    requires limits { AreLimits start.limits }
    requires left { IsLeft start.left.now }
{
    if inside.is_none() {
        return Ok(None);
    }
    let crossing = Start {
        table: start.table,
        limits: start.limits,
        left: start.left,
        opening: Opening {
            enters: start.opening.enters,
            window: start.opening.window,
            inside,
        },
        crosses: true,
    };
    match with_less_care(alloc, crossing, goal)? {
        Some(other) if other.missing <= missing => Ok(Some(other)),
        _ => Ok(None),
    }
}

/// The steps of a row, where this is left. Where regions of another loop than that of the window are entered one below the
/// other, it is planned in that loop, if as much of the row is found so.
pub(crate) fn plan(alloc: Global, start: Start, goal: Goal) -> Result<RowPlan, OutOfMemory>
    requires limits { AreLimits start.limits }
    requires left { IsLeft start.left.now }
{
    let inside = start.opening.inside;
    let Some(first) = with_less_care(alloc, start, goal)? else {
        return Ok(RowPlan {
            steps: Vec::new(alloc),
            inside,
        });
    };
    let other = other_loop(&first, inside);
    match planned_in(alloc, start, goal, other, first.missing)? {
        None => Ok(RowPlan {
            steps: first.steps,
            inside,
        }),
        Some(found) => Ok(RowPlan {
            steps: found.steps,
            inside: other,
        }),
    }
}
