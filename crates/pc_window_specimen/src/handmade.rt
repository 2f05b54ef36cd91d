//! Windows that are made by hand.
ghost use Rattle.std.specs.Prelude.{◌≡◌, ◌<◌, ◌^◌, [], IfOk};
ghost use Rattle.pc_window.specs.Tree.{tree_size};
ghost use Rattle.pc_window.specs.StoredWindow.{tree_in};

use crate::sizes::size;
use crate::tables::{Part, item_of};
use crate::untold::Untold;
use pc_window::{FormList, NameTable, Window, WindowTree};
use pc_word::{Item, Limits, Operand};
use std::alloc::{AllocError, Global};

/// A window of this tree, without names and in no loop.
pub fn bare(alloc: Global, tree: WindowTree, limits: Limits) -> Window
    ensures tree { result.tree ≡ tree }
    ensures names { result.names.forms ≡ [] }
    ensures limits { result.limits ≡ limits }
{
    Window {
        tree,
        names: NameTable {
            forms: FormList::new(alloc),
            next_variable: 0,
        },
        limits,
        inside: None,
    }
}

/// Puts an item above the last tree. Whether there is one.
fn put_item(
    alloc: Global,
    origin: u32,
    item: Item,
    trees: &mut Vec<WindowTree>,
) -> Result<bool, AllocError> {
    let Some(rest) = trees.pop() else {
        return Ok(false);
    };
    let rest = Box::new(alloc, rest)?;
    trees.push(WindowTree::Step {
        tag: 0,
        origin,
        item,
        rest,
    })?;
    Ok(true)
}

/// Puts a test above the last two trees, of which the last is its yes side. Whether there are two.
fn put_test(
    alloc: Global,
    origin: u32,
    on: Operand,
    trees: &mut Vec<WindowTree>,
) -> Result<bool, AllocError> {
    let (Some(yes), Some(no)) = (trees.pop(), trees.pop()) else {
        return Ok(false);
    };
    let yes = Box::new(alloc, yes)?;
    let no = Box::new(alloc, no)?;
    trees.push(WindowTree::Test {
        tag: 0,
        origin,
        on,
        yes,
        no,
    })?;
    Ok(true)
}

/// Puts a leaf above the last tree, which is a node then. Whether there is one.
fn put_node(alloc: Global, trees: &mut Vec<WindowTree>) -> Result<bool, AllocError> {
    let Some(below) = trees.pop() else {
        return Ok(false);
    };
    let below = Box::new(alloc, below)?;
    trees.push(WindowTree::Node { below })?;
    Ok(true)
}

/// Puts a part above the trees of those that come after it. Whether it can stand there.
fn put(alloc: Global, part: Part, trees: &mut Vec<WindowTree>) -> Result<bool, AllocError> {
    if let Some((origin, item)) = item_of(part) {
        return put_item(alloc, origin, item, trees);
    }
    match part {
        Part::Asks(origin, on) => put_test(alloc, origin, on, trees),
        Part::Node => put_node(alloc, trees),
        Part::Stop => {
            trees.push(WindowTree::Stop)?;
            Ok(true)
        }
        _ => Ok(false),
    }
}

/// The tree of these parts.
fn tree(alloc: Global, parts: &[Part]) -> Result<WindowTree, Untold> {
    let mut trees = Vec::new(alloc);
    for part in parts.iter().rev() {
        if !put(alloc, *part, &mut trees)? {
            return Err(Untold::NoTable);
        }
    }
    trees.pop().ok_or(Untold::NoTable)
}

/// A window of these parts, all at tag 0, without names and in no loop.
pub fn told_window(alloc: Global, parts: &[Part], limits: Limits) -> Result<Window, Untold>
    ensures { IfOk result (λ window. tree_size (tree_in window.tree) < 2 ^ 31) }
{
    let tree = tree(alloc, parts)?;
    if size(&tree).is_none() {
        return Err(Untold::NoTable);
    }
    Ok(bare(alloc, tree, limits))
}
