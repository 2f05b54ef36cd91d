//! A test that divides its node, and comes to stand in place of the leaf above.
ghost use Rattle.std.specs.Prelude.{◌≡◌, ◌<◌, ◌^◌, true, IfOk};
ghost use Rattle.pc_window.specs.Tree.{Stop_exit, tree_size};
ghost use Rattle.pc_window.specs.StoredWindow.{tree_in};
ghost use Rattle.pc_moveop.specs.NodeTree.{Item_node, Leads_out, nodes_in};
ghost use Rattle.pc_movecj.specs.Dividing.{yes_part, divided};
ghost use Rattle.pc_movecj.specs.models.TestClimbs.{items_before, items_at, no_side, with_end, leads_on};

use crate::climbing::TestClimb;
use pc_moveop::{leaf_count, leaf_to};
use pc_window::WindowTree;
use pc_word::Item;
use std::alloc::{AllocError, Global};

/// What a divided node needs beside what it has: the items before its test once more, and boxes.
#[derive(Debug, Drop)]
pub(crate) struct Spare {
    pub(crate) items: Box<WindowTree>,
    pub(crate) yes: Box<WindowTree>,
    pub(crate) no: Box<WindowTree>,
}

/// A box that is to be filled.
fn spare_box(alloc: Global) -> Result<Box<WindowTree>, AllocError>
    ensures { IfOk result (λ it. nodes_in it.value ≡ Leads_out Stop_exit) }
{
    let spare = Box::new(alloc, WindowTree::Stop)?;
    Ok(spare)
}

/// An item above a copy.
fn copy_item(
    alloc: Global,
    tag: u32,
    origin: u32,
    item: Item,
    rest: Box<WindowTree>,
) -> Result<Box<WindowTree>, AllocError>
    ensures { IfOk result (λ it. nodes_in it.value ≡ Item_node tag origin item (nodes_in rest.value)) }
{
    let step = Box::new(
        alloc,
        WindowTree::Step {
            tag,
            origin,
            item,
            rest,
        },
    )?;
    Ok(step)
}

/// A copy of the items before the first test of a node.
fn items_before(alloc: Global, tree: &WindowTree) -> Result<Box<WindowTree>, AllocError>
    ensures { IfOk result (λ items. nodes_in items.value ≡ items_before (nodes_in tree.now)) }
{
    match tree {
        WindowTree::Step {
            tag,
            origin,
            item,
            rest,
        } => {
            let rest = items_before(alloc, rest)?;
            copy_item(alloc, *tag, *origin, *item, rest)
        }
        WindowTree::Test { .. } => spare_box(alloc),
        WindowTree::Node { .. } => spare_box(alloc),
        WindowTree::Exit { .. } => spare_box(alloc),
        WindowTree::Stop => spare_box(alloc),
        WindowTree::Trap { .. } => spare_box(alloc),
    }
}

/// A copy of the items before the first test of the node that a leaf leads to.
fn items_at(alloc: Global, tree: &WindowTree, leaf: u32) -> Result<Box<WindowTree>, AllocError>
    requires { tree_size (tree_in tree.now) < 2 ^ 31 }
    ensures { IfOk result (λ items. nodes_in items.value ≡ items_at leaf (nodes_in tree.now)) }
{
    match tree {
        WindowTree::Step { rest, .. } => items_at(alloc, rest, leaf),
        WindowTree::Test { yes, no, .. } => {
            let on_yes = leaf_count(yes);
            if leaf < on_yes {
                return items_at(alloc, yes, leaf);
            }
            items_at(alloc, no, leaf - on_yes)
        }
        WindowTree::Node { below } => {
            if leaf == 0 {
                return items_before(alloc, below);
            }
            spare_box(alloc)
        }
        WindowTree::Exit { .. } => spare_box(alloc),
        WindowTree::Stop => spare_box(alloc),
        WindowTree::Trap { .. } => spare_box(alloc),
    }
}

/// All that dividing a node needs, before anything is changed.
pub(crate) fn spare_for(alloc: Global, tree: &WindowTree, leaf: u32) -> Result<Spare, AllocError>
    requires { tree_size (tree_in tree.now) < 2 ^ 31 }
    ensures { IfOk result (λ spare. nodes_in spare.items.value ≡ items_at leaf (nodes_in tree.now)) }
{
    let items = items_at(alloc, tree, leaf)?;
    let yes = spare_box(alloc)?;
    let no = spare_box(alloc)?;
    Ok(Spare { items, yes, no })
}

/// Takes the first test of a node away: its yes side stays, and its no side is given back.
fn cut_at_test(tree: &mut WindowTree) -> WindowTree
    ensures yes { nodes_in tree.new ≡ yes_part (nodes_in tree.old) }
    ensures no { nodes_in result ≡ no_side (nodes_in tree.old) }
{
    match tree {
        WindowTree::Step { rest, .. } => cut_at_test(rest),
        WindowTree::Test { yes, no, .. } => {
            let on_yes = std::mem::replace(&mut **yes, WindowTree::Stop);
            let on_no = std::mem::replace(&mut **no, WindowTree::Stop);
            *tree = on_yes;
            on_no
        }
        WindowTree::Node { .. } => WindowTree::Stop,
        WindowTree::Exit { .. } => WindowTree::Stop,
        WindowTree::Stop => WindowTree::Stop,
        WindowTree::Trap { .. } => WindowTree::Stop,
    }
}

/// Puts a tree behind items.
fn put_behind(items: &mut WindowTree, last: WindowTree)
    ensures { nodes_in items.new ≡ with_end (nodes_in items.old) (nodes_in last) }
{
    match items {
        WindowTree::Step { rest, .. } => put_behind(rest, last),
        WindowTree::Test { .. } => *items = last,
        WindowTree::Node { .. } => *items = last,
        WindowTree::Exit { .. } => *items = last,
        WindowTree::Stop => *items = last,
        WindowTree::Trap { .. } => *items = last,
    }
}

/// A leaf, where a test that stood in the node behind it now divides that node.
#[tactic(auto, using(crate::proofs::Divided::dividing))]
fn divided_leaf(leaf: WindowTree, climb: TestClimb, spare: Spare) -> WindowTree
    requires items { nodes_in spare.items.value ≡ items_at 0 (nodes_in leaf) }
    requires leads { leads_on leaf ≡ true }
    ensures { nodes_in result ≡ divided climb.tag climb.origin climb.on 0 (nodes_in leaf) }
{
    let Spare { items, yes, no } = spare;
    let mut items = items;
    let mut yes = yes;
    let mut no = no;
    match leaf {
        WindowTree::Node { below } => {
            let mut below = below;
            let on_no = cut_at_test(&mut below);
            put_behind(&mut items, on_no);
            *yes = leaf_to(below);
            *no = leaf_to(items);
            WindowTree::Test {
                tag: climb.tag,
                origin: climb.origin,
                on: climb.on,
                yes,
                no,
            }
        }
        other => other,
    }
}

/// The same in place.
fn divide_here(tree: &mut WindowTree, leaf: u32, climb: TestClimb, spare: Spare)
    requires items { nodes_in spare.items.value ≡ items_at leaf (nodes_in tree.old) }
    requires leads { leads_on tree.old ≡ true }
    ensures { nodes_in tree.new ≡ divided climb.tag climb.origin climb.on leaf (nodes_in tree.old) }
{
    if leaf != 0 {
        return;
    }
    let from = std::mem::replace(tree, WindowTree::Stop);
    *tree = divided_leaf(from, climb, spare);
}

/// A test comes to stand in place of a leaf of a node, and divides the node behind it.
pub(crate) fn divide(tree: &mut WindowTree, leaf: u32, climb: TestClimb, spare: Spare)
    requires small { tree_size (tree_in tree.old) < 2 ^ 31 }
    requires items { nodes_in spare.items.value ≡ items_at leaf (nodes_in tree.old) }
    ensures { nodes_in tree.new ≡ divided climb.tag climb.origin climb.on leaf (nodes_in tree.old) }
{
    match tree {
        WindowTree::Step { rest, .. } => divide(rest, leaf, climb, spare),
        WindowTree::Test { yes, no, .. } => {
            let on_yes = leaf_count(yes);
            if leaf < on_yes {
                divide(yes, leaf, climb, spare)
            } else {
                divide(no, leaf - on_yes, climb, spare)
            }
        }
        WindowTree::Node { .. } => divide_here(tree, leaf, climb, spare),
        WindowTree::Exit { .. } => {}
        WindowTree::Stop => {}
        WindowTree::Trap { .. } => {}
    }
}
