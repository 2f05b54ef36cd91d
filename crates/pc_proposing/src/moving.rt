//! Parts that come into the front.
use crate::parts::{Part, What, end_of};
use pc_word::Operand;
use std::alloc::AllocError;

/// The item at a place comes up to another.
pub(crate) fn bring_item(
    parts: &mut Vec<Part>,
    place: usize,
    top: usize,
) -> Result<(), AllocError> {
    if place >= parts.len() || top > place {
        return Ok(());
    }
    let mut part = parts.remove(place);
    part.finished = true;
    parts.insert(top, part)?;
    Ok(())
}

/// The test at a place comes up to another; what it passes stands on both its sides then.
pub(crate) fn bring_test(
    parts: &mut Vec<Part>,
    place: usize,
    top: usize,
) -> Result<(), AllocError> {
    bring_item(parts, place, top)?;
    if place >= parts.len() || top > place {
        return Ok(());
    }
    let count = place - top;
    let mut end = end_of(parts.as_slice(), place + 1);
    for at in 0..count {
        if top + 1 + at < parts.len() && end <= parts.len() {
            let passed = parts[top + 1 + at];
            parts.insert(end, passed)?;
            end += 1;
        }
    }
    Ok(())
}

/// A name in place of another in what a part reads.
fn renamed(what: What, from: u32, to: u32) -> What {
    match what {
        What::Item(item) => What::Item(item.map_operands(|operand| in_place_of(operand, from, to))),
        What::Test(on) => What::Test(in_place_of(on, from, to)),
        What::Stub(_) | What::End => what,
    }
}

/// A name in place of another.
fn in_place_of(operand: Operand, from: u32, to: u32) -> Operand {
    operand.map_name(|name| if name == from { to } else { name })
}

/// What items write.
fn dest_of(what: What) -> Option<u32> {
    match what {
        What::Item(item) => item.dest(),
        _ => None,
    }
}

/// Two equal items on the sides of a test become one above it. `other` is where the no side begins.
pub(crate) fn join(
    parts: &mut Vec<Part>,
    branch: usize,
    on_yes: usize,
    other: usize,
    on_no: usize,
) -> Result<(), AllocError> {
    if on_no >= parts.len() || on_yes >= on_no || branch >= on_yes || other > on_no {
        return Ok(());
    }
    let one = dest_of(parts[on_yes].what);
    let two = dest_of(parts[on_no].what);
    let end = end_of(parts.as_slice(), other);
    if let (Some(one), Some(two)) = (one, two) {
        for at in other..end {
            if at < parts.len() {
                parts[at].what = renamed(parts[at].what, two, one);
            }
        }
    }
    parts.remove(on_no);
    bring_item(parts, on_yes, branch)
}
