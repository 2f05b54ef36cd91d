//! Taking an item out of a tree, and dividing a tree at a test.
ghost use Rattle.std.specs.Prelude.{◌≡◌, ◌≢◌, ◌&&◌, nat_eq, Bool, ◌<◌, ◌^◌, true, false, Some, IfOk, length, slice_get};
ghost use Rattle.pc_word.specs.Items.{dest_of};
ghost use Rattle.pc_window.specs.Tree.{tree_size, Pending};
ghost use Rattle.pc_window.specs.Rename.{map_homes, mapped};
ghost use Rattle.pc_window.specs.StoredWindow.{tree_in, InNodes};
ghost use Rattle.pc_fill.specs.models.Way.{taken_along};
ghost use Rattle.pc_fill.specs.models.Taking.{taken_out, starts_with_item, divided_on, divided_yes, divided_no};
ghost use Rattle.pc_word.specs.Naming.{map_operands, renamed};

use crate::readiness::size_up_to;
use pc_window::{WindowTree, map_homes};
use pc_word::{Item, Operand};
use std::alloc::{AllocError, Global};

/// An operand with one name in place of another.
fn renamed(operand: Operand, old: u32, new: u32) -> Operand
    ensures { result ≡ renamed (Some old) (Some new) operand }
{
    if operand.is_name(old) {
        return Operand::Name(new);
    }
    operand
}

/// A tree that reads one name in place of another.
fn rename(tree: &mut WindowTree, old: u32, new: u32)
    ensures tree { tree_in tree.new ≡ mapped (renamed (Some old) (Some new)) (tree_in tree.old) }
    ensures nodes { (at_root : Bool) → InNodes at_root tree.old → InNodes at_root tree.new }
{
    match tree {
        WindowTree::Step { item, rest, .. } => {
            *item = item.map_operands(|operand| renamed(operand, old, new));
            rename(rest, old, new);
        }
        WindowTree::Test { on, yes, no, .. } => {
            *on = renamed(*on, old, new);
            rename(yes, old, new);
            rename(no, old, new);
        }
        WindowTree::Node { below } => rename(below, old, new),
        WindowTree::Exit { homes, .. } => {
            map_homes(homes, |operand| renamed(operand, old, new));
        }
        WindowTree::Stop => {}
        WindowTree::Trap { .. } => {}
    }
}

/// What stands below an item, where what the item writes gets this name.
#[tactic(auto, using(crate::proofs::Taken::taking))]
fn rest_of(item: Item, below: WindowTree, name: Option<u32>) -> WindowTree
    ensures tree { tree_in result ≡ mapped (renamed (dest_of item) name) (tree_in below) }
    ensures nodes { (at_root : Bool) → InNodes at_root below → InNodes at_root result }
{
    let mut rest = below;
    if let Some(old) = item.dest() {
        if let Some(new) = name {
            rename(&mut rest, old, new);
        }
    }
    rest
}

/// Whether an item stands at the root of a tree.
fn starts_with_item(tree: &WindowTree) -> bool
    ensures { result ≡ starts_with_item (tree_in tree.now) }
{
    match tree {
        WindowTree::Step { .. } => true,
        WindowTree::Test { .. } => false,
        WindowTree::Node { below } => starts_with_item(below),
        WindowTree::Exit { .. } => false,
        WindowTree::Stop => false,
        WindowTree::Trap { .. } => false,
    }
}

/// Whether the item below so many items stands at the root of a tree.
fn is_here(tree: &WindowTree, depth: u32) -> bool
    ensures { result ≡ (nat_eq depth 0 && starts_with_item (tree_in tree.now)) }
{
    if depth == 0 {
        return starts_with_item(tree);
    }
    false
}

/// A tree without the item at its root.
#[tactic(auto, using(crate::proofs::Taken::taking))]
fn without_root(tree: WindowTree, name: Option<u32>) -> WindowTree
    requires { starts_with_item (tree_in tree) ≡ true }
    ensures tree { tree_in result ≡ taken_out name (tree_in tree) 0 }
    ensures nodes { (at_root : Bool) → InNodes at_root tree → InNodes false result }
{
    match tree {
        WindowTree::Step { item, rest, .. } => rest_of(item, Box::into_inner(rest), name),
        WindowTree::Node { below } => without_root(Box::into_inner(below), name),
        other => other,
    }
}

/// Takes the item at the root out.
#[tactic(auto, using(crate::proofs::Taken::taking))]
fn take_root(tree: &mut WindowTree, name: Option<u32>)
    ensures tree { tree_in tree.new ≡ taken_out name (tree_in tree.old) 0 }
    ensures nodes { InNodes false tree.old → InNodes false tree.new }
{
    if starts_with_item(tree) {
        let whole = std::mem::replace(tree, WindowTree::Stop);
        *tree = without_root(whole, name);
    }
}

/// Takes the item where a way leads out, where what it writes gets this name.
#[tactic(auto, using(crate::proofs::Taken::taking))]
pub(crate) fn take_along(tree: &mut WindowTree, way: &[bool], depth: u32, name: Option<u32>)
    ensures tree { tree_in tree.new ≡ taken_along name (tree_in tree.old) way.now depth }
    ensures below { InNodes false tree.old → InNodes false tree.new }
    ensures root { (nat_eq depth 0 && starts_with_item (tree_in tree.old)) ≡ false → InNodes true tree.old → InNodes true tree.new }
{
    match tree {
        WindowTree::Step { rest, .. } => {
            if depth == 0 {
                return take_root(tree, name);
            }
            take_along(rest, way, depth - 1, name)
        }
        WindowTree::Test { yes, no, .. } => match way.split_first() {
            None => {}
            Some((side, below)) => {
                if *side {
                    take_along(yes, below, depth, name)
                } else {
                    take_along(no, below, depth, name)
                }
            }
        },
        WindowTree::Node { below } => {
            if is_here(below, depth) {
                return take_root(tree, name);
            }
            take_along(below, way, depth, name)
        }
        WindowTree::Exit { .. } => {}
        WindowTree::Stop => {}
        WindowTree::Trap { .. } => {}
    }
}

/// Takes the item at a place out, where what it writes gets this name.
#[tactic(auto, using(crate::proofs::Taken::taking))]
pub(crate) fn take_out(tree: &mut WindowTree, place: u32, name: Option<u32>)
    ensures tree { tree_in tree.new ≡ taken_out name (tree_in tree.old) place }
    ensures below { InNodes false tree.old → InNodes false tree.new }
    ensures root { place ≢ 0 → InNodes true tree.old → InNodes true tree.new }
{
    if place == 0 {
        return take_root(tree, name);
    }
    match tree {
        WindowTree::Step { rest, .. } => take_out(rest, place - 1, name),
        WindowTree::Test { yes, no, .. } => {
            let on_yes = size_up_to(yes, place);
            if place - 1 < on_yes {
                take_out(yes, place - 1, name)
            } else {
                take_out(no, place - 1 - on_yes, name)
            }
        }
        WindowTree::Node { below } => take_out(below, place, name),
        WindowTree::Exit { .. } => {}
        WindowTree::Stop => {}
        WindowTree::Trap { .. } => {}
    }
}

/// A tree that a test divides.
#[derive(Debug, Drop)]
pub(crate) struct Divided {
    pub(crate) on: Operand,
    pub(crate) yes: WindowTree,
    pub(crate) no: WindowTree,
}

/// The two sides of the first test of a tree, each behind the items above it.
pub(crate) fn divide(alloc: Global, tree: WindowTree) -> Result<Divided, AllocError>
    ensures on { IfOk result (λ it. it.on ≡ divided_on (tree_in tree)) }
    ensures yes { IfOk result (λ it. tree_in it.yes ≡ divided_yes (tree_in tree)) }
    ensures no { IfOk result (λ it. tree_in it.no ≡ divided_no (tree_in tree)) }
    ensures nodes { (at_root : Bool) → InNodes at_root tree → IfOk result (λ it. InNodes false it.yes × InNodes false it.no) }
{
    match tree {
        WindowTree::Step {
            tag,
            origin,
            item,
            rest,
        } => {
            let below = divide(alloc, Box::into_inner(rest))?;
            behind_item(alloc, tag, origin, item, below)
        }
        WindowTree::Test { on, yes, no, .. } => Ok(Divided {
            on,
            yes: Box::into_inner(yes),
            no: Box::into_inner(no),
        }),
        WindowTree::Node { below } => divide(alloc, Box::into_inner(below)),
        other => Ok(Divided {
            on: Operand::Lit(0),
            yes: other,
            no: WindowTree::Stop,
        }),
    }
}

/// The two sides behind one item more.
fn behind_item(
    alloc: Global,
    tag: u32,
    origin: u32,
    item: Item,
    below: Divided,
) -> Result<Divided, AllocError>
    ensures on { IfOk result (λ it. it.on ≡ below.on) }
    ensures yes { IfOk result (λ it. tree_in it.yes ≡ Pending tag origin item (tree_in below.yes)) }
    ensures no { IfOk result (λ it. tree_in it.no ≡ Pending tag origin item (tree_in below.no)) }
    ensures nodes { InNodes false below.yes → InNodes false below.no → IfOk result (λ it. InNodes false it.yes × InNodes false it.no) }
{
    let Divided { on, yes, no } = below;
    let yes = item_node(alloc, tag, origin, item, yes)?;
    let no = item_node(alloc, tag, origin, item, no)?;
    Ok(Divided { on, yes, no })
}

/// A node of one item, above a tree.
fn item_node(
    alloc: Global,
    tag: u32,
    origin: u32,
    item: Item,
    rest: WindowTree,
) -> Result<WindowTree, AllocError>
    ensures tree { IfOk result (λ it. tree_in it ≡ Pending tag origin item (tree_in rest)) }
    ensures nodes { InNodes false rest → IfOk result (λ it. InNodes false it) }
{
    let rest = Box::new(alloc, rest)?;
    let below = Box::new(
        alloc,
        WindowTree::Step {
            tag,
            origin,
            item,
            rest,
        },
    )?;
    Ok(WindowTree::Node { below })
}
