//! The items, tests and leaves of a window, in preorder.
use pc_window::WindowTree;
use pc_word::{Item, Operand};
use std::alloc::AllocError;

/// What a part of a window is.
#[derive(Clone, Copy)]
pub(crate) enum What {
    Item(Item),
    Test(Operand),
    /// A stub of this region.
    Stub(u32),
    End,
}

/// An item, a test or a leaf of a window.
#[derive(Clone, Copy)]
pub(crate) struct Part {
    pub(crate) tag: u32,
    pub(crate) origin: u32,
    pub(crate) what: What,
    /// Whether it is in the front.
    pub(crate) finished: bool,
    /// By which opening it came: 0 if it was there from the beginning.
    pub(crate) block: u32,
    /// The number of a leaf among those of its block.
    pub(crate) leaf: u32,
    /// Its place before anything came into the front.
    pub(crate) first: u32,
}

/// A count as a number; the greatest number for each count that is greater.
pub(crate) fn number_of(count: usize) -> u32 {
    count.min(u32::MAX as usize) as u32
}

/// How many trees begin behind a part.
pub(crate) fn sides(what: What) -> u32 {
    match what {
        What::Item(_) => 1,
        What::Test(_) => 2,
        What::Stub(_) | What::End => 0,
    }
}

/// Appends the parts of a tree.
pub(crate) fn push_parts(parts: &mut Vec<Part>, tree: &WindowTree) -> Result<(), AllocError> {
    match tree {
        WindowTree::Step {
            tag,
            origin,
            item,
            rest,
        } => {
            push_part(parts, *tag, *origin, What::Item(*item))?;
            push_parts(parts, rest)
        }
        WindowTree::Test {
            tag,
            origin,
            on,
            yes,
            no,
        } => {
            push_part(parts, *tag, *origin, What::Test(*on))?;
            push_parts(parts, yes)?;
            push_parts(parts, no)
        }
        WindowTree::Node { below } => push_parts(parts, below),
        WindowTree::Exit { region, tag, .. } => push_part(parts, *tag, 0, What::Stub(*region)),
        WindowTree::Stop => push_part(parts, 0, 0, What::End),
        WindowTree::Trap { .. } => push_part(parts, 0, 0, What::End),
    }
}

/// Appends a part that was there from the beginning.
fn push_part(parts: &mut Vec<Part>, tag: u32, origin: u32, what: What) -> Result<(), AllocError> {
    let first = number_of(parts.len());
    parts.push(Part {
        tag,
        origin,
        what,
        finished: false,
        block: 0,
        leaf: 0,
        first,
    })?;
    Ok(())
}

/// Where the tree that begins at a place ends: behind its last part.
pub(crate) fn end_of(parts: &[Part], from: usize) -> usize {
    let mut open = 1u64;
    for at in from..parts.len() {
        open = open.saturating_add(sides(parts[at].what) as u64);
        open = open.saturating_sub(1);
        if open == 0 {
            return at + 1;
        }
    }
    parts.len()
}
