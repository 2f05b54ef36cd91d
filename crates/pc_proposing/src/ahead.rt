//! A window in which stubs were opened.
ghost use Rattle.pc_word.specs.Ranges.{AreLimits};
ghost use Rattle.pc_settling.specs.Stored.{IsLeft};

use crate::parts::{Part, What, end_of, push_parts};
use crate::start::{Start, arranged};
use pc_cert::Step;
use pc_window::Window;
use pc_word::{Item, OutOfMemory};
use std::alloc::{AllocError, Global};

/// A stub that was opened: its block, and its number among the leaves of that.
#[derive(Clone, Copy)]
pub(crate) struct Block {
    pub(crate) parent: u32,
    pub(crate) leaf: u32,
    /// Whether something came from it into the front.
    pub(crate) used: bool,
}

/// What a row begins with, and the stubs that were opened in it.
#[derive(Drop)]
pub(crate) struct Ahead {
    pub(crate) steps: Vec<Step>,
    pub(crate) window: Window,
    pub(crate) parts: Vec<Part>,
    /// The loop of a stub that was entered in a region which was opened before, if there is one.
    pub(crate) deeper: Option<u16>,
}

/// The parts of a window, in which leaves have numbers.
fn parts_of(alloc: Global, window: &Window) -> Result<Vec<Part>, AllocError> {
    let mut parts = Vec::new(alloc);
    push_parts(&mut parts, &window.tree)?;
    let count = parts.len();
    number_leaves(&mut parts, 0, count, 0);
    Ok(parts)
}

/// Gives the parts from one place to another a block, and its leaves their numbers.
fn number_leaves(parts: &mut Vec<Part>, from: usize, to: usize, block: u32) {
    let mut leaf = 0u32;
    for at in from..to {
        if let Some(part) = parts.get_mut(at) {
            part.block = block;
            part.leaf = leaf;
            if matches!(part.what, What::Stub(_) | What::End) {
                leaf = leaf.saturating_add(1);
            }
        }
    }
}

/// What a row begins with, with no stub opened.
pub(crate) fn begun(alloc: Global, start: Start) -> Result<Option<Ahead>, OutOfMemory>
    requires limits { AreLimits start.limits }
    requires left { IsLeft start.left.now }
{
    let steps = Vec::new(alloc);
    let window = arranged(alloc, start, steps.as_slice())?;
    let Some(window) = window else {
        return Ok(None);
    };
    let parts = parts_of(alloc, &window)?;
    Ok(Some(Ahead {
        steps,
        window,
        parts,
        deeper: None,
    }))
}

/// Whether a part is a stub that leads on inside a loop.
pub(crate) fn stays(start: Start, part: &Part, inside: Option<u16>) -> bool {
    if start.crosses && part.block == 0 {
        return false;
    }
    match part.what {
        What::Stub(region) => start.table.is_inside(region, inside),
        _ => false,
    }
}

/// The loop of the first stub that is to be entered in a region which was opened before.
fn deeper_loop(
    start: Start,
    inside: Option<u16>,
    parts: &[Part],
    chosen: &[Option<u32>],
) -> Option<u16> {
    for at in 0..parts.len() {
        let part = &parts[at];
        if let (Some(Some(_)), What::Stub(region)) = (chosen.get(at), part.what) {
            if part.block > 0 && !stays(start, part, inside) {
                return start.table.regions.get(region as usize)?.inside;
            }
        }
    }
    None
}

/// Whether a part is a copy to a name from a number on.
fn is_new_copy(part: Option<&Part>, names: usize) -> bool {
    match part {
        None => false,
        Some(part) => match part.what {
            What::Item(Item::Copy { dest, .. }) => dest as usize >= names,
            _ => false,
        },
    }
}

/// Appends steps that open the leaves that are chosen, the last first.
fn push_opens(
    steps: &mut Vec<Step>,
    start: Start,
    inside: Option<u16>,
    parts: &[Part],
    chosen: &[Option<u32>],
) -> Result<(), AllocError> {
    let mut leaves = 0u32;
    for part in parts {
        if matches!(part.what, What::Stub(_) | What::End) {
            leaves = leaves.saturating_add(1);
        }
    }
    for back in 0..parts.len() {
        let at = parts.len() - 1 - back;
        if matches!(parts[at].what, What::Stub(_) | What::End) {
            leaves = leaves.saturating_sub(1);
            if let Some(Some(_)) = chosen.get(at) {
                if leaves <= u16::MAX as u32 {
                    let leaf = leaves as u16;
                    if stays(start, &parts[at], inside) {
                        steps.push(Step::Open { leaf })?;
                    } else {
                        steps.push(Step::Enter { leaf })?;
                    }
                }
            }
        }
    }
    Ok(())
}

/// Gives the parts of a window their blocks, where leaves of it were opened.
fn carry_blocks(parts: &mut Vec<Part>, names: usize, before: &[Part], chosen: &[Option<u32>]) {
    let mut at = 0usize;
    for old in 0..before.len() {
        for _ in 0..parts.len() {
            if is_new_copy(parts.get(at), names) {
                at = at.saturating_add(1);
            }
        }
        let block = match chosen.get(old) {
            Some(Some(block)) => Some(*block),
            _ => None,
        };
        match block {
            Some(block) => {
                let end = end_of(parts.as_slice(), at);
                number_leaves(parts, at, end, block);
                at = end;
            }
            None => {
                if let Some(part) = parts.get_mut(at) {
                    part.block = before[old].block;
                    part.leaf = before[old].leaf;
                }
                at = at.saturating_add(1);
            }
        }
    }
}

/// The same with more stubs opened, each for the block that is chosen for it. `None` where one may not be opened, or
/// the window is too large.
pub(crate) fn opened(
    alloc: Global,
    start: Start,
    ahead: &Ahead,
    chosen: &[Option<u32>],
) -> Result<Option<Ahead>, OutOfMemory>
    requires limits { AreLimits start.limits }
    requires left { IsLeft start.left.now }
{
    let mut steps = Vec::from_slice(alloc, ahead.steps.as_slice())?;
    push_opens(
        &mut steps,
        start,
        ahead.window.inside,
        ahead.parts.as_slice(),
        chosen,
    )?;
    let window = arranged(alloc, start, steps.as_slice())?;
    let Some(window) = window else {
        return Ok(None);
    };
    let mut parts = Vec::new(alloc);
    push_parts(&mut parts, &window.tree)?;
    let names = ahead.window.names.forms.len();
    carry_blocks(&mut parts, names, ahead.parts.as_slice(), chosen);
    let inside = ahead.window.inside;
    let deeper = match ahead.deeper {
        None => deeper_loop(start, inside, ahead.parts.as_slice(), chosen),
        found => found,
    };
    Ok(Some(Ahead {
        steps,
        window,
        parts,
        deeper,
    }))
}
