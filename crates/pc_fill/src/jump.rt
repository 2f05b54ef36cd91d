//! One jump: what is first comes into the front.
ghost use Rattle.std.specs.Prelude.{◌≡◌, ◌<◌, ◌≤◌, ◌+◌, ◌^◌, ℕ, ◌||◌, true, false, Some, is_some, IfOk, length};
ghost use Rattle.pc_window.specs.Tree.{tree_size};
ghost use Rattle.pc_window.specs.Filled.{given_supply};
ghost use Rattle.pc_window.specs.StoredWindow.{tree_in, front_in, forms_in, supply_in, window_in, NodesBehind};
ghost use Rattle.pc_fill.specs.models.Landing.{came, new_name, FirstTwinOf, landed_window, HasCome};
ghost use Rattle.pc_fill.specs.models.Way.{Reaches, some_sides, crosses_along};
ghost use Rattle.pc_fill.specs.models.Walk.{found_at};
ghost use Rattle.pc_fill.specs.models.TagOrder.{TagsInOrderBehind};

use crate::landing::{Coming, land};
use crate::twin::{Seeker, twin_of};
use crate::walk::Found;
use pc_window::{NameTable, Window, WindowTree};
use pc_word::Item;
use std::alloc::{AllocError, Global};

/// Whether an unfinished test stands above where a way leads.
fn crosses(tree: &WindowTree, way: &[bool]) -> bool
    ensures { result ≡ crosses_along (front_in tree.now) way.now }
{
    match tree {
        WindowTree::Step { rest, .. } => crosses(rest, way),
        WindowTree::Test { yes, no, .. } => match way.split_first() {
            None => false,
            Some((side, below)) => {
                if *side {
                    return crosses(yes, below);
                }
                crosses(no, below)
            }
        },
        WindowTree::Node { .. } => has_sides(way),
        WindowTree::Exit { .. } => has_sides(way),
        WindowTree::Stop => has_sides(way),
        WindowTree::Trap { .. } => has_sides(way),
    }
}

/// Whether a way takes a side of a test.
fn has_sides(way: &[bool]) -> bool
    ensures { result ≡ some_sides way.now }
{
    match way.split_first() {
        None => false,
        Some(_) => true,
    }
}

/// An item as it comes: with the next name, where it is to get one and writes one.
#[tactic(auto, using(crate::proofs::Named::naming))]
fn name_item(names: &mut NameTable, item: Item, renames: bool) -> Result<Item, AllocError>
    requires names { length names.old.forms < 2 ^ 31 }
    requires variables { names.old.next_variable < 2 ^ 31 }
    ensures item { IfOk result (λ it. Some it ≡ came (length names.old.forms) renames (Some item)) }
    ensures names { IfOk result (λ it. supply_in names.new
        ≡ given_supply (supply_in names.old) (new_name (length names.old.forms) renames (Some item)) (came (length names.old.forms) renames (Some item))) }
    ensures count { IfOk result (λ it. length names.new.forms ≤ length names.old.forms + 1) }
    ensures variables { IfOk result (λ it. names.new.next_variable ≤ names.old.next_variable + 1) }
{
    if !renames {
        return Ok(item);
    }
    match item.dest() {
        None => Ok(item.with_dest(names.forms.len() as u32)),
        Some(_) => {
            let form = names.combined(item);
            let name = names.add(form)?;
            Ok(item.with_dest(name))
        }
    }
}

/// What comes: an item, with the next name where it is to get one, or a test.
#[tactic(auto, using(crate::proofs::Named::coming))]
fn name_coming(
    names: &mut NameTable,
    what: Option<Item>,
    renames: bool,
) -> Result<Option<Item>, AllocError>
    requires names { length names.old.forms < 2 ^ 31 }
    requires variables { names.old.next_variable < 2 ^ 31 }
    ensures item { IfOk result (λ it. it ≡ came (length names.old.forms) renames what) }
    ensures names { IfOk result (λ it. supply_in names.new
        ≡ given_supply (supply_in names.old) (new_name (length names.old.forms) renames what) (came (length names.old.forms) renames what)) }
    ensures count { IfOk result (λ it. length names.new.forms ≤ length names.old.forms + 1) }
    ensures variables { IfOk result (λ it. names.new.next_variable ≤ names.old.next_variable + 1) }
{
    match what {
        None => Ok(None),
        Some(item) => {
            let item = name_item(names, item, renames)?;
            Ok(Some(item))
        }
    }
}

/// The place of the first twin of what is ready where a way leads.
#[tactic(auto, using(crate::proofs::Named::twinned))]
fn first_twin(window: &Window, found: Found, way: &[bool]) -> Option<u32>
    requires small { tree_size (tree_in window.now.tree) < 2 ^ 31 }
    requires names { length window.now.names.forms < 2 ^ 31 }
    ensures { (place : ℕ) → Reaches (front_in window.now.tree) way.now found.depth place → FirstTwinOf (forms_in window.now.names.forms)
        (length window.now.names.forms) found.tag found.origin found.item (front_in window.now.tree) place result }
{
    match found.item {
        None => None,
        Some(item) => {
            let seeker = Seeker {
                tag: found.tag,
                origin: found.origin,
                item,
            };
            twin_of(&window.tree, &window.names, seeker, way)
        }
    }
}

/// Whether what is ready gets a new name.
fn renames(window: &Window, way: &[bool], twin: Option<u32>) -> bool
    ensures { result ≡ (is_some twin || crosses_along (front_in window.now.tree) way.now) }
{
    match twin {
        Some(_) => true,
        None => crosses(&window.tree, way),
    }
}

/// What is ready where a way leads comes into the front, alone or with this twin.
#[tactic(auto, using(crate::proofs::Named::jumping))]
pub(crate) fn come(
    alloc: Global,
    window: Window,
    found: Found,
    way: &[bool],
    twin: Option<u32>,
) -> Result<Window, AllocError>
    requires nodes { NodesBehind window.tree }
    requires names { length window.names.forms < 2 ^ 31 }
    requires variables { window.names.next_variable < 2 ^ 31 }
    ensures come { (place : ℕ) → Reaches (front_in window.tree) way.now found.depth place
        → IfOk result (λ later. window_in later ≡ landed_window (window_in window) (found_at found place) twin) }
    ensures nodes { IfOk result (λ later. NodesBehind later.tree) }
    ensures in_order { TagsInOrderBehind (front_in window.tree) → IfOk result (λ later. TagsInOrderBehind (front_in later.tree)) }
    ensures count { IfOk result (λ later. length later.names.forms ≤ length window.names.forms + 1) }
    ensures variables { IfOk result (λ later. later.names.next_variable ≤ window.names.next_variable + 1) }
{
    let renames = renames(&window, way, twin);
    let Window {
        tree,
        names,
        limits,
        inside,
    } = window;
    let mut tree = tree;
    let mut names = names;
    let item = name_coming(&mut names, found.item, renames)?;
    let coming = Coming {
        tag: found.tag,
        origin: found.origin,
        item,
        twin,
    };
    land(alloc, &mut tree, coming, way, found.depth)?;
    Ok(Window {
        tree,
        names,
        limits,
        inside,
    })
}

/// What is first of all that is ready, where a way leads, comes into the front.
#[tactic(auto, using(crate::proofs::Named::first))]
pub(crate) fn jump(
    alloc: Global,
    window: Window,
    found: Found,
    way: &[bool],
) -> Result<Window, AllocError>
    requires small { tree_size (tree_in window.tree) < 2 ^ 31 }
    requires nodes { NodesBehind window.tree }
    requires names { length window.names.forms < 2 ^ 31 }
    requires variables { window.names.next_variable < 2 ^ 31 }
    ensures come { (place : ℕ) → Reaches (front_in window.tree) way.now found.depth place → IfOk result (λ later. HasCome (window_in window) (found_at found place) (window_in later)) }
    ensures nodes { IfOk result (λ later. NodesBehind later.tree) }
    ensures in_order { TagsInOrderBehind (front_in window.tree) → IfOk result (λ later. TagsInOrderBehind (front_in later.tree)) }
    ensures count { IfOk result (λ later. length later.names.forms ≤ length window.names.forms + 1) }
    ensures variables { IfOk result (λ later. later.names.next_variable ≤ window.names.next_variable + 1) }
{
    let twin = first_twin(&window, found, way);
    come(alloc, window, found, way, twin)
}
