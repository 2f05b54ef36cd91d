//! Windows as text, to be held against what was worked out by hand.

use pc_window::{Home, WindowTree, is_leaf};
use pc_word::{Item, Operand, TrapKind};
use std::alloc::{AllocError, Global};

/// Writes an item, after its tag and its origin.
fn write_item(
    alloc: Global,
    tag: u32,
    origin: u32,
    item: Item,
    text: &mut String,
) -> Result<(), AllocError> {
    let line = format!(in alloc; "{tag} {origin} {item:?}\n")?;
    text.push_str(line.as_str())
}

/// Writes a test, after its tag and its origin.
fn write_test(
    alloc: Global,
    tag: u32,
    origin: u32,
    on: Operand,
    text: &mut String,
) -> Result<(), AllocError> {
    let line = format!(in alloc; "{tag} {origin} if {on:?}\n")?;
    text.push_str(line.as_str())
}

/// Writes a stub, after its tag.
fn write_stub(
    alloc: Global,
    tag: u32,
    region: u32,
    homes: &[Home],
    text: &mut String,
) -> Result<(), AllocError> {
    let line = format!(in alloc; "{tag} to region {region} with {homes:?}\n")?;
    text.push_str(line.as_str())
}

/// Writes a trap.
fn write_trap(
    alloc: Global,
    kind: TrapKind,
    line: u32,
    text: &mut String,
) -> Result<(), AllocError> {
    let line = format!(in alloc; "{kind:?} at line {line}\n")?;
    text.push_str(line.as_str())
}

/// Writes a tree: a line for each item, test, stub and end, the yes side of a test before the no side; and one where
/// the front ends, if it begins in it.
fn write_tree(
    alloc: Global,
    tree: &WindowTree,
    in_front: bool,
    text: &mut String,
) -> Result<(), AllocError> {
    if in_front && is_leaf(tree) {
        text.push_str("behind\n")?;
    }
    match tree {
        WindowTree::Step {
            tag,
            origin,
            item,
            rest,
        } => {
            write_item(alloc, *tag, *origin, *item, text)?;
            write_tree(alloc, rest, in_front, text)
        }
        WindowTree::Test {
            tag,
            origin,
            on,
            yes,
            no,
        } => {
            write_test(alloc, *tag, *origin, *on, text)?;
            write_tree(alloc, yes, in_front, text)?;
            write_tree(alloc, no, in_front, text)
        }
        WindowTree::Node { below } => write_tree(alloc, below, false, text),
        WindowTree::Exit { region, tag, homes } => {
            write_stub(alloc, *tag, *region, homes.as_slice(), text)
        }
        WindowTree::Stop => text.push_str("end\n"),
        WindowTree::Trap { kind, line } => write_trap(alloc, *kind, *line, text),
    }
}

/// A tree with a line for each item, test, stub and end, the yes side of a test before the no side. Where its nodes end
/// does not show.
pub fn tree_text(alloc: Global, tree: &WindowTree) -> Result<String, AllocError> {
    let mut text = String::new(alloc);
    write_tree(alloc, tree, false, &mut text)?;
    Ok(text)
}

/// The same, with the line `behind` below each leaf of the front, which is the root node.
pub fn front_text(alloc: Global, tree: &WindowTree) -> Result<String, AllocError> {
    let mut text = String::new(alloc);
    write_tree(alloc, tree, true, &mut text)?;
    Ok(text)
}
