//! What is learnt from a try that failed.
use crate::stands::{Stand, Stands};
use pc_cert::Step;

/// Whether a stand's steps enter a region, and items are used above it.
fn enters_and_uses(stand: &Stand) -> bool {
    let mut enters = false;
    let mut uses = false;
    for step in stand.steps.as_slice() {
        match step {
            Step::Enter { .. } => enters = true,
            Step::Use { .. } => uses = true,
            _ => {}
        }
    }
    enters && uses
}

/// The row of the nearest stand, on the way to a stand, before which a region could be entered.
fn row_to_blame(stands: &Stands, early: &[bool], number: Option<u32>) -> Option<u32> {
    let mut next = number;
    for _ in 0..stands.all.len() {
        let stand = stands.all.get(next? as usize)?;
        if enters_and_uses(stand) && early.get(stand.row as usize) == Some(&false) {
            return Some(stand.row);
        }
        next = stand.from;
    }
    None
}

/// The row that a failure may come from, before which a region could be entered.
fn lesson_of(stands: &Stands, early: &[bool]) -> Option<u32> {
    match row_to_blame(stands, early, stands.missed) {
        None => row_to_blame(stands, early, stands.current),
        found => found,
    }
}

/// Whether some stand was planned with facts that it lost.
fn any_misplanned(stands: &[Stand]) -> bool {
    for stand in stands {
        if stand.misplanned {
            return true;
        }
    }
    false
}

/// Learns from a failure: which facts hold, or else before which row a region is to be entered. Says whether there is
/// something to learn.
pub(crate) fn learn(stands: &Stands, early: &mut Vec<bool>) -> bool {
    if any_misplanned(stands.all.as_slice()) {
        return true;
    }
    let Some(row) = lesson_of(stands, early.as_slice()) else {
        return false;
    };
    if let Some(it) = early.get_mut(row as usize) {
        *it = true;
    }
    true
}
