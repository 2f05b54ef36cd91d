//! What comes into the front: an item at the end of its path, or a test in place of its leaf.
ghost use Rattle.std.specs.Prelude.{◌≡◌, ◌<◌, ◌^◌, ◌-◌, true, false, Some, IfOk, OnOk};
ghost use Rattle.pc_word.specs.Items.{dest_of};
ghost use Rattle.pc_window.specs.Tree.{tree_size, Issued, Split, Unfinished, whole};
ghost use Rattle.pc_window.specs.StoredWindow.{tree_in, front_in, InNodes, NodesBehind};
ghost use Rattle.pc_fill.specs.models.Taking.{taken_out, divided_on, divided_yes, divided_no};
ghost use Rattle.pc_fill.specs.models.Landing.{both_unfinished, joins};
ghost use Rattle.pc_fill.specs.models.Way.{taken_along, joins_along, leaf_along, landed_along};

use crate::taking::{Divided, divide, take_along, take_out};
use pc_window::{WindowTree, is_leaf};
use pc_word::{Item, Operand};
use std::alloc::{AllocError, Global};

/// What comes into the front: its tag and origin, the item, or `None` where it is a test, and the
/// place of its twin, where it has one.
#[derive(Clone, Copy, Debug)]
pub(crate) struct Coming {
    pub(crate) tag: u32,
    pub(crate) origin: u32,
    pub(crate) item: Option<Item>,
    pub(crate) twin: Option<u32>,
}

/// Whether nothing of either side is finished.
pub(crate) fn both_unfinished(yes: &WindowTree, no: &WindowTree) -> bool
    ensures { result ≡ both_unfinished (front_in yes.now) (front_in no.now) }
{
    if is_leaf(yes) {
        return is_leaf(no);
    }
    false
}

/// Whether an item is one with its twin at a test.
fn joins(twin: Option<u32>, yes: &WindowTree, no: &WindowTree) -> bool
    ensures { result ≡ joins twin (front_in yes.now) (front_in no.now) }
{
    match twin {
        Some(_) => both_unfinished(yes, no),
        None => false,
    }
}

/// An item goes to the end of the path above a leaf.
#[tactic(auto, using(crate::proofs::Landed::landing))]
fn land_item(
    alloc: Global,
    tree: &mut WindowTree,
    coming: Coming,
    item: Item,
    way: &[bool],
    depth: u32,
) -> Result<(), AllocError>
    requires nodes { InNodes false tree.old }
    ensures front { OnOk result (front_in tree.new ≡ Issued coming.tag coming.origin item (Unfinished (taken_along (dest_of item) (tree_in tree.old) way.now depth))) }
    ensures nodes { OnOk result (NodesBehind tree.new) }
{
    take_along(tree, way, depth, item.dest());
    let left = std::mem::replace(tree, WindowTree::Stop);
    let rest = Box::new(alloc, left)?;
    *tree = WindowTree::Step {
        tag: coming.tag,
        origin: coming.origin,
        item,
        rest,
    };
    Ok(())
}

/// A test replaces a leaf.
#[tactic(auto, using(crate::proofs::Landed::landing))]
fn land_test(alloc: Global, tree: &mut WindowTree, coming: Coming) -> Result<(), AllocError>
    requires nodes { InNodes false tree.old }
    ensures front { OnOk result (front_in tree.new
        ≡ Split coming.tag coming.origin (divided_on (tree_in tree.old)) (Unfinished (divided_yes (tree_in tree.old))) (Unfinished (divided_no (tree_in tree.old)))) }
    ensures nodes { OnOk result (NodesBehind tree.new) }
{
    let from = std::mem::replace(tree, WindowTree::Stop);
    let Divided { on, yes, no } = divide(alloc, from)?;
    let yes = Box::new(alloc, yes)?;
    let no = Box::new(alloc, no)?;
    *tree = WindowTree::Test {
        tag: coming.tag,
        origin: coming.origin,
        on,
        yes,
        no,
    };
    Ok(())
}

/// What comes from behind a leaf comes into the front there.
#[tactic(auto, using(crate::proofs::Landed::landing))]
fn land_behind(
    alloc: Global,
    tree: &mut WindowTree,
    coming: Coming,
    way: &[bool],
    depth: u32,
) -> Result<(), AllocError>
    requires nodes { InNodes false tree.old }
    ensures front { OnOk result (front_in tree.new ≡ leaf_along coming coming.item (tree_in tree.old) way.now depth) }
    ensures nodes { OnOk result (NodesBehind tree.new) }
{
    match coming.item {
        Some(item) => land_item(alloc, tree, coming, item, way, depth),
        None => land_test(alloc, tree, coming),
    }
}

/// Whether what comes along a way is one with its twin right at the root of a front.
fn joins_at(twin: Option<u32>, tree: &WindowTree, way: &[bool]) -> bool
    ensures { result ≡ joins_along twin (front_in tree.now) way.now }
{
    match tree {
        WindowTree::Step { .. } => false,
        WindowTree::Test { yes, no, .. } => match way.split_first() {
            None => false,
            Some((side, _)) => {
                if *side {
                    return joins(twin, yes, no);
                }
                false
            }
        },
        WindowTree::Node { .. } => false,
        WindowTree::Exit { .. } => false,
        WindowTree::Stop => false,
        WindowTree::Trap { .. } => false,
    }
}

/// An item that stands on the yes side of a test, where a way leads, and on the no side, at the place
/// of its twin, becomes one above the test.
#[tactic(auto, using(crate::proofs::Landed::landing))]
fn above(
    alloc: Global,
    coming: Coming,
    item: Item,
    way: &[bool],
    depth: u32,
    twin: u32,
    tag: u32,
    origin: u32,
    on: Operand,
    yes: Box<WindowTree>,
    no: Box<WindowTree>,
) -> Result<WindowTree, AllocError>
    requires yes_nodes { InNodes false yes.value }
    requires no_nodes { InNodes false no.value }
    ensures front { IfOk result (λ it. front_in it ≡ Issued coming.tag coming.origin item
        (Split tag origin on (Unfinished (taken_along (dest_of item) (tree_in yes.value) way.now depth)) (Unfinished (taken_out (dest_of item) (tree_in no.value) twin)))) }
    ensures nodes { IfOk result (λ it. NodesBehind it) }
{
    let mut yes = yes;
    let mut no = no;
    take_along(&mut yes, way, depth, item.dest());
    take_out(&mut no, twin, item.dest());
    let rest = Box::new(
        alloc,
        WindowTree::Test {
            tag,
            origin,
            on,
            yes,
            no,
        },
    )?;
    Ok(WindowTree::Step {
        tag: coming.tag,
        origin: coming.origin,
        item,
        rest,
    })
}

/// An item and its twin become one above the test at the root.
#[tactic(auto, using(crate::proofs::Landed::landing, crate::proofs::Landed::joining))]
fn above_root(
    alloc: Global,
    tree: WindowTree,
    coming: Coming,
    item: Item,
    way: &[bool],
    depth: u32,
    twin: u32,
) -> Result<WindowTree, AllocError>
    requires nodes { NodesBehind tree }
    requires item { coming.item ≡ Some item }
    requires twin { coming.twin ≡ Some twin }
    requires joins { joins_along coming.twin (front_in tree) way.now ≡ true }
    ensures front { IfOk result (λ it. front_in it ≡ landed_along coming (front_in tree) way.now depth) }
    ensures nodes { IfOk result (λ it. NodesBehind it) }
{
    match tree {
        WindowTree::Test {
            tag,
            origin,
            on,
            yes,
            no,
        } => {
            let (_, below) = way.split_first().unwrap();
            above(
                alloc, coming, item, below, depth, twin, tag, origin, on, yes, no,
            )
        }
        other => Ok(other),
    }
}

/// The same in place.
#[tactic(auto, using(crate::proofs::Landed::landing, crate::proofs::Landed::joining))]
fn land_above(
    alloc: Global,
    tree: &mut WindowTree,
    coming: Coming,
    way: &[bool],
    depth: u32,
) -> Result<(), AllocError>
    requires nodes { NodesBehind tree.old }
    requires joins { joins_along coming.twin (front_in tree.old) way.now ≡ true }
    ensures front { OnOk result (front_in tree.new ≡ landed_along coming (front_in tree.old) way.now depth) }
    ensures nodes { OnOk result (NodesBehind tree.new) }
{
    let Some(item) = coming.item else {
        return Ok(());
    };
    let Some(twin) = coming.twin else {
        return Ok(());
    };
    let whole = std::mem::replace(tree, WindowTree::Stop);
    *tree = above_root(alloc, whole, coming, item, way, depth, twin)?;
    Ok(())
}

/// What is ready where a way leads comes into the front.
#[tactic(auto, using(crate::proofs::Landed::landing))]
pub(crate) fn land(
    alloc: Global,
    tree: &mut WindowTree,
    coming: Coming,
    way: &[bool],
    depth: u32,
) -> Result<(), AllocError>
    requires nodes { NodesBehind tree.old }
    ensures front { OnOk result (front_in tree.new ≡ landed_along coming (front_in tree.old) way.now depth) }
    ensures nodes { OnOk result (NodesBehind tree.new) }
{
    if is_leaf(tree) {
        return land_behind(alloc, tree, coming, way, depth);
    }
    if joins_at(coming.twin, tree, way) {
        return land_above(alloc, tree, coming, way, depth);
    }
    match tree {
        WindowTree::Step { rest, .. } => land(alloc, rest, coming, way, depth),
        WindowTree::Test { yes, no, .. } => match way.split_first() {
            None => Ok(()),
            Some((side, below)) => {
                if *side {
                    return land(alloc, yes, coming, below, depth);
                }
                land(alloc, no, coming, below, depth)
            }
        },
        WindowTree::Node { .. } => Ok(()),
        WindowTree::Exit { .. } => Ok(()),
        WindowTree::Stop => Ok(()),
        WindowTree::Trap { .. } => Ok(()),
    }
}
