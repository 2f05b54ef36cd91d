//! Making one item of two equal ones on the two sides of a test.
ghost use Rattle.std.specs.Prelude.{◌≡◌, ◌<◌, ◌≤◌, ◌+◌, ◌^◌, suc, length, Some, None, IfOk, IfErr, IsSome, OnOk, OnErr};
ghost use Rattle.pc_window.specs.Tree.{tree_size};
ghost use Rattle.pc_window.specs.Steps.{IsProper};
ghost use Rattle.pc_window.specs.StoredWindow.{tree_in, window_in};
ghost use Rattle.pc_moveop.specs.NodeTree.{nodes_in, node_at, NoEmptyNode};
ghost use Rattle.pc_moveop.specs.Moving.{NodeChanges, Fails, WalkKept};
ghost use Rattle.pc_unify.specs.Unifying.{AreThere, IsWhyNotUnify, joined, HaveJoined};
ghost use Rattle.pc_unify.specs.models.Twins.{FindsTwins, coming_in};

use crate::joining::join;
use crate::twins::{Standing, find};
use pc_moveop::{MoveError, swap_node, why_not};
use pc_window::{Window, WindowTree};
use std::alloc::{AllocError, Global};

/// Why one of two items that are there may not move, the yes item first.
#[tactic(auto, using(crate::proofs::FoundTwins::refusing))]
fn refusal_of(
    window: &Window,
    parent: &[u16],
    leaf: u16,
    yes_place: u16,
    no_place: u16,
) -> Option<MoveError>
    requires small { tree_size (tree_in window.now.tree) < 2 ^ 31 }
    requires there { AreThere window.now parent.now leaf yes_place no_place }
    requires numbered { leaf + 1 < 2 ^ 16 }
    ensures { IsWhyNotUnify window.now parent.now leaf yes_place no_place result }
{
    match why_not(window, parent, leaf, yes_place) {
        Some(why) => Some(why),
        None => why_not(window, parent, leaf + 1, no_place),
    }
}

/// The yes item of the two that a unification names, where it is legal, or why it is refused.
#[tactic(auto, using(crate::proofs::FoundTwins::refusing))]
fn legal_twins(
    window: &Window,
    parent: &[u16],
    leaf: u16,
    yes_place: u16,
    no_place: u16,
) -> Result<Standing, MoveError>
    requires { tree_size (tree_in window.now.tree) < 2 ^ 31 }
    ensures found { IfOk result (λ on_yes. FindsTwins leaf yes_place no_place (node_at parent.now (nodes_in window.now.tree)) (Some on_yes)) }
    ensures legal { OnOk result (IsWhyNotUnify window.now parent.now leaf yes_place no_place None) }
    ensures refused { IfErr result (λ why. IsWhyNotUnify window.now parent.now leaf yes_place no_place (Some why)) }
{
    match find(window, parent, leaf, yes_place, no_place) {
        None => Err(MoveError::NotThere),
        Some(on_yes) => match refusal_of(window, parent, leaf, yes_place, no_place) {
            None => Ok(on_yes),
            Some(why) => Err(why),
        },
    }
}

/// Why two items may not become one above their test, if they may not: the first refusal. See
/// `unify`.
pub fn why_not_unify(
    window: &Window,
    parent: &[u16],
    leaf: u16,
    yes_place: u16,
    no_place: u16,
) -> Option<MoveError>
    requires { tree_size (tree_in window.now.tree) < 2 ^ 31 }
    ensures { IsWhyNotUnify window.now parent.now leaf yes_place no_place result }
{
    match legal_twins(window, parent, leaf, yes_place, no_place) {
        Ok(_) => None,
        Err(why) => Some(why),
    }
}

/// A box for what is to come, before anything is changed.
fn spare_box(alloc: Global) -> Result<Box<WindowTree>, AllocError> {
    let spare = Box::new(alloc, WindowTree::Stop)?;
    Ok(spare)
}

/// Two items become one in the node that a path leads to.
#[tactic(auto, using(pc_moveop::proofs::Brought::bringing))]
fn bring(
    tree: &mut WindowTree,
    parent: &[u16],
    leaf: u32,
    yes_place: u32,
    no_place: u32,
    joint: Standing,
    spare: Box<WindowTree>,
)
    requires small { tree_size (tree_in tree.old) < 2 ^ 31 }
    requires there { IsSome (node_at parent.now (nodes_in tree.old)) }
    ensures { NodeChanges (nodes_in tree.old) (nodes_in tree.new) parent.now (joined (coming_in joint) leaf yes_place no_place) }
{
    let mut node = swap_node(tree, parent, WindowTree::Stop);
    join(&mut node, leaf, yes_place, no_place, joint, spare);
    swap_node(tree, parent, node);
}

/// What may become one does. On `Err` the window is as before.
#[tactic(auto, using(crate::proofs::FoundTwins::carrying))]
fn carry(
    alloc: Global,
    window: &mut Window,
    parent: &[u16],
    leaf: u16,
    yes_place: u16,
    no_place: u16,
    on_yes: Standing,
) -> Result<(), AllocError>
    requires small { tree_size (tree_in window.old.tree) < 2 ^ 31 }
    requires names { length window.old.names.forms < 2 ^ 31 }
    requires variables { window.old.names.next_variable < 2 ^ 31 }
    requires found { FindsTwins leaf yes_place no_place (node_at parent.now (nodes_in window.old.tree)) (Some on_yes) }
    ensures joined { OnOk result (HaveJoined window.old window.new parent.now leaf yes_place no_place) }
    ensures undone { OnErr result (window.new ≡ window.old) }
    ensures count { OnOk result (length window.new.names.forms ≤ length window.old.names.forms + 1) }
    ensures variables { OnOk result (window.new.names.next_variable ≤ window.old.names.next_variable + 1) }
{
    let spare = spare_box(alloc)?;
    let item = window.names.give_name(on_yes.item)?;
    let joint = Standing { item, ..on_yes };
    bring(
        &mut window.tree,
        parent,
        leaf as u32,
        yes_place as u32,
        no_place as u32,
        joint,
        spare,
    );
    Ok(())
}

/// Makes one item of two that are equal but for their names, right above the test on whose two sides
/// they stand.
///
/// `parent` is the path of leaves that leads from the front to the node of the test; the front's own
/// path is empty. `leaf` and the next one are the yes and the no leaf of the test and stand directly
/// under it. `yes_place` and `no_place` are the items' places in the nodes to which these lead;
/// leaves, and items and tests together, are counted in preorder, from 0. The one item has the tag
/// and the origin of the yes item. If it writes a name it writes a new one, and what reads the old
/// ones below reads the new one. On `Err` the window is as before.
pub fn unify(
    alloc: Global,
    window: &mut Window,
    parent: &[u16],
    leaf: u16,
    yes_place: u16,
    no_place: u16,
) -> Result<(), MoveError>
    requires proper { IsProper (window_in window.old) }
    requires small { tree_size (tree_in window.old.tree) < 2 ^ 31 }
    requires names { length window.old.names.forms < 2 ^ 31 }
    requires variables { window.old.names.next_variable < 2 ^ 31 }
    ensures legal { OnOk result (IsWhyNotUnify window.old parent.now leaf yes_place no_place None) }
    ensures fails { IfErr result (λ why. Fails (IsWhyNotUnify window.old parent.now leaf yes_place no_place) window.old window.new why) }
    ensures joined { OnOk result (HaveJoined window.old window.new parent.now leaf yes_place no_place) }
    ensures proper { OnOk result (IsProper (window_in window.new)) }
    ensures keeps { OnOk result (WalkKept window.old window.new) }
    ensures size { OnOk result (suc (tree_size (tree_in window.new.tree)) ≡ tree_size (tree_in window.old.tree)) }
    ensures nodes { OnOk result (NoEmptyNode (nodes_in window.old.tree) → NoEmptyNode (nodes_in window.new.tree)) }
    ensures count { OnOk result (length window.new.names.forms ≤ length window.old.names.forms + 1) }
    ensures variables { OnOk result (window.new.names.next_variable ≤ window.old.names.next_variable + 1) }
{
    let on_yes = legal_twins(window, parent, leaf, yes_place, no_place)?;
    carry(alloc, window, parent, leaf, yes_place, no_place, on_yes)?;
    Ok(())
}
