//! Stubs are opened from which something comes that a row does.
ghost use Rattle.pc_word.specs.Ranges.{AreLimits};
ghost use Rattle.pc_settling.specs.Stored.{IsLeft};

use crate::ahead::{Ahead, Block, opened, stays};
use crate::parts::{Part, What, number_of};
use crate::start::Start;
use crate::trying::{Goal, Trial, lacking_leaves, tried};
use pc_word::OutOfMemory;
use std::alloc::{AllocError, Global};

/// How many iterations are looked ahead at most.
const MOST_LEVELS: u32 = 3;

/// The most parts of a window that is looked at.
const MOST_PARTS: usize = 2048;

/// Whether a part is a stub.
fn is_stub(part: &Part) -> bool {
    matches!(part.what, What::Stub(_))
}

/// A new block in the place of a leaf.
fn new_block(blocks: &mut Vec<Block>, part: &Part) -> Result<u32, AllocError> {
    let number = number_of(blocks.len());
    blocks.push(Block {
        parent: part.block,
        leaf: part.leaf,
        used: false,
    })?;
    Ok(number)
}

/// New blocks for the stubs that may be opened, of the leaves that are marked.
pub(crate) fn choose_marked(
    alloc: Global,
    ahead: &Ahead,
    start: Start,
    enters: bool,
    marks: &[bool],
    blocks: &mut Vec<Block>,
) -> Result<Vec<Option<u32>>, AllocError> {
    let mut chosen = Vec::with_capacity(alloc, ahead.parts.len())?;
    let mut leaf = 0usize;
    for part in ahead.parts.as_slice() {
        let mut choice = None;
        if matches!(part.what, What::Stub(_) | What::End) {
            if let Some(true) = marks.get(leaf).copied() {
                if is_stub(part) && (enters || stays(start, part, ahead.window.inside)) {
                    choice = Some(new_block(blocks, part)?);
                }
            }
            leaf = leaf.saturating_add(1);
        }
        chosen.push(choice)?;
    }
    Ok(chosen)
}

/// For each leaf whether it stands in a block from a number on.
fn leaves_from(alloc: Global, ahead: &Ahead, first: u32) -> Result<Vec<bool>, AllocError> {
    let mut marks = Vec::new(alloc);
    for part in ahead.parts.as_slice() {
        if matches!(part.what, What::Stub(_) | What::End) {
            marks.push(part.block >= first)?;
        }
    }
    Ok(marks)
}

/// Whether something is chosen.
pub(crate) fn any(chosen: &[Option<u32>]) -> bool {
    for it in chosen {
        if it.is_some() {
            return true;
        }
    }
    false
}

/// Marks the blocks from which something came into the front, and those above them, from a number on. Says whether
/// there are any.
fn mark_used(blocks: &mut Vec<Block>, used: &[u32], first: u32) -> bool {
    let mut found = false;
    for block in used {
        let mut number = *block;
        for _ in 0..blocks.len() {
            if number >= first {
                if let Some(block) = blocks.get_mut(number as usize) {
                    block.used = true;
                    found = true;
                    number = block.parent;
                }
            }
        }
    }
    found
}

/// For each part the block for which it is opened, of those from which something came.
fn choose_used(
    alloc: Global,
    ahead: &Ahead,
    blocks: &[Block],
    first: u32,
) -> Result<Vec<Option<u32>>, AllocError> {
    let mut chosen = Vec::with_capacity(alloc, ahead.parts.len())?;
    for part in ahead.parts.as_slice() {
        let mut choice = None;
        if matches!(part.what, What::Stub(_)) {
            for number in first as usize..blocks.len() {
                let block = &blocks[number];
                if block.used && block.parent == part.block && block.leaf == part.leaf {
                    choice = Some(number_of(number));
                }
            }
        }
        chosen.push(choice)?;
    }
    Ok(chosen)
}

/// A window with all stubs opened below the leaves that are marked, so many iterations ahead.
fn opened_far(
    alloc: Global,
    start: Start,
    ahead: &Ahead,
    lacking: &[bool],
    enters: bool,
    levels: u32,
    blocks: &mut Vec<Block>,
) -> Result<Option<Ahead>, OutOfMemory>
    requires limits { AreLimits start.limits }
    requires left { IsLeft start.left.now }
{
    let first = number_of(blocks.len());
    let chosen = choose_marked(alloc, ahead, start, enters, lacking, blocks)?;
    if !any(chosen.as_slice()) {
        return Ok(None);
    }
    let Some(mut far) = opened(alloc, start, ahead, chosen.as_slice())? else {
        return Ok(None);
    };
    for _ in 1..levels {
        let marks = leaves_from(alloc, &far, first)?;
        let chosen = choose_marked(alloc, &far, start, enters, marks.as_slice(), blocks)?;
        if !any(chosen.as_slice()) || far.parts.len() > MOST_PARTS {
            return Ok(Some(far));
        }
        let Some(further) = opened(alloc, start, &far, chosen.as_slice())? else {
            return Ok(Some(far));
        };
        far = further;
    }
    Ok(Some(far))
}

/// A window with the stubs opened from which something came, of those from a number on.
fn opened_used(
    alloc: Global,
    start: Start,
    ahead: &Ahead,
    levels: u32,
    blocks: &[Block],
    first: u32,
) -> Result<Option<Ahead>, OutOfMemory>
    requires limits { AreLimits start.limits }
    requires left { IsLeft start.left.now }
{
    let chosen = choose_used(alloc, ahead, blocks, first)?;
    let Some(mut found) = opened(alloc, start, ahead, chosen.as_slice())? else {
        return Ok(None);
    };
    for _ in 1..levels {
        let chosen = choose_used(alloc, &found, blocks, first)?;
        if !any(chosen.as_slice()) {
            return Ok(Some(found));
        }
        let Some(further) = opened(alloc, start, &found, chosen.as_slice())? else {
            return Ok(None);
        };
        found = further;
    }
    Ok(Some(found))
}

/// A window with the stubs opened from which something comes that a row does, at most so many iterations ahead.
fn look_ahead(
    alloc: Global,
    start: Start,
    ahead: &Ahead,
    goal: Goal,
    lacking: &[bool],
    enters: bool,
    levels: u32,
    blocks: &mut Vec<Block>,
) -> Result<Option<Ahead>, OutOfMemory>
    requires limits { AreLimits start.limits }
    requires left { IsLeft start.left.now }
{
    let first = number_of(blocks.len());
    let far = opened_far(alloc, start, ahead, lacking, enters, levels, blocks)?;
    let Some(far) = far else {
        return Ok(None);
    };
    let trial = tried(alloc, &far, goal)?;
    if !mark_used(blocks, trial.blocks.as_slice(), first) {
        return Ok(None);
    }
    opened_used(alloc, start, ahead, levels, blocks.as_slice(), first)
}

/// A block for each number that stands in a window.
pub(crate) fn blocks_of(alloc: Global, ahead: &Ahead) -> Result<Vec<Block>, AllocError> {
    let mut count = 0u32;
    for part in ahead.parts.as_slice() {
        count = count.max(part.block.saturating_add(1));
    }
    let mut blocks = Vec::new(alloc);
    for _ in 0..count {
        blocks.push(Block {
            parent: 0,
            leaf: 0,
            used: false,
        })?;
    }
    Ok(blocks)
}

/// A window with more stubs opened, if something of a row is found in them.
pub(crate) fn further(
    alloc: Global,
    start: Start,
    ahead: &Ahead,
    goal: Goal,
    trial: &Trial,
) -> Result<Option<Ahead>, OutOfMemory>
    requires limits { AreLimits start.limits }
    requires left { IsLeft start.left.now }
{
    let lacking = lacking_leaves(alloc, trial)?;
    let mut blocks = blocks_of(alloc, ahead)?;
    for turn in 0..2 * MOST_LEVELS {
        let enters = turn % 2 == 1;
        let levels = 1 + turn / 2;
        let found = look_ahead(
            alloc,
            start,
            ahead,
            goal,
            lacking.as_slice(),
            enters,
            levels,
            &mut blocks,
        )?;
        if found.is_some() {
            return Ok(found);
        }
    }
    Ok(None)
}
