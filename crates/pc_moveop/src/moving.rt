//! Moving an item into the node above its own.
ghost use Rattle.std.specs.Prelude.{◌≡◌, ◌<◌, ◌≤◌, ◌+◌, ◌^◌, ℕ, Some, None, length, IfOk, IfErr, IsSome, OnOk, OnErr};
ghost use Rattle.pc_linear.specs.Form.{Form};
ghost use Rattle.pc_window.specs.Tree.{tree_size};
ghost use Rattle.pc_window.specs.Steps.{IsProper};
ghost use Rattle.pc_window.specs.StoredWindow.{tree_in, forms_in, window_in};
ghost use Rattle.pc_moveop.specs.NodeTree.{nodes_in, node_at, NoEmptyNode};
ghost use Rattle.pc_moveop.specs.Climbing.{Mover};
ghost use Rattle.pc_moveop.specs.Taking.{landed};
ghost use Rattle.pc_moveop.specs.Refusing.{mover_of, IsWhyNot};
ghost use Rattle.pc_moveop.specs.Moving.{NodeChanges, HasMoved, Fails, WalkKept};
ghost use Rattle.pc_moveop.specs.models.Climbs.{Finds, IsNamed};
ghost use Rattle.pc_moveop.specs.models.Landing.{coming_in};

use crate::climbing::Climb;
use crate::error::MoveError;
use crate::landing::{Coming, land};
use crate::nodes::swap_node;
use crate::refusing::legal_mover;
use pc_window::{NameTable, Window, WindowTree};
use pc_word::Item;
use std::alloc::{AllocError, Global};

/// Why an item may not move into the node above its own, if it may not: the first refusal in the
/// order of `MoveError`. See `move_op`.
pub fn why_not(window: &Window, parent: &[u16], leaf: u16, place: u16) -> Option<MoveError>
    requires { tree_size (tree_in window.now.tree) < 2 ^ 31 }
    ensures { IsWhyNot window.now parent.now leaf place result }
{
    match legal_mover(window, parent, leaf as u32, place as u32) {
        Ok(_) => None,
        Err(why) => Some(why),
    }
}

/// A box for what is to come, before anything is changed.
fn spare_box(alloc: Global) -> Result<Box<WindowTree>, AllocError> {
    let spare = Box::new(alloc, WindowTree::Stop)?;
    Ok(spare)
}

/// An item as it comes: with the next name where a test stands before it.
fn named(names: &mut NameTable, climb: Climb) -> Result<Item, AllocError>
    requires names { length names.old.forms < 2 ^ 31 }
    requires variables { names.old.next_variable < 2 ^ 31 }
    ensures named { IfOk result (λ it. (forms : ℕ → Form) (m : Mover) → Finds forms (Some m) (Some climb) → IsNamed names.old names.new m it) }
    ensures count { IfOk result (λ it. length names.new.forms ≤ length names.old.forms + 1) }
    ensures variables { IfOk result (λ it. names.new.next_variable ≤ names.old.next_variable + 1) }
    ensures undone { OnErr result (names.new ≡ names.old) }
{
    if !climb.crosses {
        return Ok(climb.item);
    }
    names.give_name(climb.item)
}

/// An item comes into the node that a path leads to, from a place of the node behind a leaf there.
#[tactic(auto, using(crate::proofs::Brought::bringing))]
fn bring(
    tree: &mut WindowTree,
    parent: &[u16],
    leaf: u32,
    place: u32,
    coming: Coming,
    spare: Box<WindowTree>,
)
    requires small { tree_size (tree_in tree.old) < 2 ^ 31 }
    requires there { IsSome (node_at parent.now (nodes_in tree.old)) }
    ensures { NodeChanges (nodes_in tree.old) (nodes_in tree.new) parent.now (landed (coming_in coming) leaf place) }
{
    let mut node = swap_node(tree, parent, WindowTree::Stop);
    land(&mut node, leaf, place, coming, spare);
    swap_node(tree, parent, node);
}

/// What may move moves. On `Err` the window is as before.
#[tactic(auto, using(crate::proofs::Brought::bringing))]
fn carry(
    alloc: Global,
    window: &mut Window,
    parent: &[u16],
    leaf: u32,
    place: u32,
    climb: Climb,
) -> Result<(), AllocError>
    requires small { tree_size (tree_in window.old.tree) < 2 ^ 31 }
    requires names { length window.old.names.forms < 2 ^ 31 }
    requires variables { window.old.names.next_variable < 2 ^ 31 }
    requires found { Finds (forms_in window.old.names.forms) (mover_of window.old parent.now leaf place) (Some climb) }
    ensures moved { OnOk result (HasMoved window.old window.new parent.now leaf place) }
    ensures undone { OnErr result (window.new ≡ window.old) }
    ensures count { OnOk result (length window.new.names.forms ≤ length window.old.names.forms + 1) }
    ensures variables { OnOk result (window.new.names.next_variable ≤ window.old.names.next_variable + 1) }
{
    let spare = spare_box(alloc)?;
    let item = named(&mut window.names, climb)?;
    let coming = Coming {
        tag: climb.tag,
        origin: climb.origin,
        item,
    };
    bring(&mut window.tree, parent, leaf, place, coming, spare);
    Ok(())
}

/// Moves an item to the end of a path of the node above its own.
///
/// `parent` is the path of leaves that leads from the front to the node above; the front's own path
/// is empty. `leaf` is a leaf of that node that leads to the item's node, and `place` the item's
/// place there; leaves, and items and tests together, are counted in preorder, from 0. Where a test
/// stands before the item it gets a new name, and what reads it below reads the new one. On `Err`
/// the window is as before.
pub fn move_op(
    alloc: Global,
    window: &mut Window,
    parent: &[u16],
    leaf: u16,
    place: u16,
) -> Result<(), MoveError>
    requires proper { IsProper (window_in window.old) }
    requires small { tree_size (tree_in window.old.tree) < 2 ^ 31 }
    requires names { length window.old.names.forms < 2 ^ 31 }
    requires variables { window.old.names.next_variable < 2 ^ 31 }
    ensures legal { OnOk result (IsWhyNot window.old parent.now leaf place None) }
    ensures fails { IfErr result (λ why. Fails (IsWhyNot window.old parent.now leaf place) window.old window.new why) }
    ensures moved { OnOk result (HasMoved window.old window.new parent.now leaf place) }
    ensures proper { OnOk result (IsProper (window_in window.new)) }
    ensures keeps { OnOk result (WalkKept window.old window.new) }
    ensures size { OnOk result (tree_size (tree_in window.new.tree) ≡ tree_size (tree_in window.old.tree)) }
    ensures nodes { OnOk result (NoEmptyNode (nodes_in window.old.tree) → NoEmptyNode (nodes_in window.new.tree)) }
    ensures count { OnOk result (length window.new.names.forms ≤ length window.old.names.forms + 1) }
    ensures variables { OnOk result (window.new.names.next_variable ≤ window.old.names.next_variable + 1) }
{
    let climb = legal_mover(window, parent, leaf as u32, place as u32)?;
    carry(alloc, window, parent, leaf as u32, place as u32, climb)?;
    Ok(())
}
