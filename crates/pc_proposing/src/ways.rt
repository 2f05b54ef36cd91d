//! What stands above the parts of a window.
use crate::parts::{Part, What, number_of};
use crate::wanted::Segment;
use std::alloc::{AllocError, Global};

/// What stands above a part.
#[derive(Clone, Copy)]
pub(crate) struct Way {
    /// The place of the item or test right above it.
    pub(crate) above: Option<u32>,
    /// The stretch of the row that the front's path above it comes to; none where the row has no such test.
    pub(crate) segment: Option<u32>,
    /// The place of the first part of its path behind the front, where it is not in the front.
    pub(crate) top: Option<u32>,
    /// The number of items and tests before it.
    pub(crate) number: u32,
}

/// What a part hands down.
#[derive(Clone, Copy)]
struct Down {
    above: Option<u32>,
    segment: Option<u32>,
    top: Option<u32>,
}

/// The stretches on the two sides of a test of the front.
fn sides_of(segments: &[Segment], segment: Option<u32>) -> (Option<u32>, Option<u32>) {
    let Some(number) = segment else {
        return (None, None);
    };
    match segments.get(number as usize) {
        None => (None, None),
        Some(it) => match it.on {
            None => (None, None),
            Some(_) => (Some(it.on_yes), Some(it.on_no)),
        },
    }
}

/// Hands down what stands above to what is below a part.
fn hand_down(
    waiting: &mut Vec<Down>,
    segments: &[Segment],
    part: Part,
    down: Down,
) -> Result<(), AllocError> {
    match part.what {
        What::Item(_) => waiting.push(down)?,
        What::Test(_) => {
            let (on_yes, on_no) = if part.finished {
                sides_of(segments, down.segment)
            } else {
                (down.segment, down.segment)
            };
            waiting.push(Down {
                above: down.above,
                segment: on_no,
                top: down.top,
            })?;
            waiting.push(Down {
                above: down.above,
                segment: on_yes,
                top: down.top,
            })?;
        }
        What::Stub(_) | What::End => {}
    }
    Ok(())
}

/// The place of the first part of a part's path behind the front, where it is not in the front.
fn top_of(part: Part, down: Down, at: usize) -> Option<u32> {
    if part.finished {
        return None;
    }
    match down.top {
        Some(top) => Some(top),
        None => Some(number_of(at)),
    }
}

/// What stands above each part.
pub(crate) fn ways_of(
    alloc: Global,
    parts: &[Part],
    segments: &[Segment],
) -> Result<Vec<Way>, AllocError> {
    let mut ways = Vec::with_capacity(alloc, parts.len())?;
    let mut waiting = Vec::new(alloc);
    waiting.push(Down {
        above: None,
        segment: Some(0),
        top: None,
    })?;
    let mut number = 0u32;
    for at in 0..parts.len() {
        let part = parts[at];
        let Some(down) = waiting.pop() else {
            return Ok(ways);
        };
        let top = top_of(part, down, at);
        ways.push(Way {
            above: down.above,
            segment: down.segment,
            top,
            number,
        })?;
        let below = Down {
            above: Some(number_of(at)),
            segment: down.segment,
            top,
        };
        hand_down(&mut waiting, segments, part, below)?;
        if matches!(part.what, What::Item(_) | What::Test(_)) {
            number = number.saturating_add(1);
        }
    }
    Ok(ways)
}
