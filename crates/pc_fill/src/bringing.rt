//! One item or test, brought into the front from the place that is named.
ghost use Rattle.std.specs.Prelude.{◌≡◌, ◌↔◌, ◌<◌, ◌≤◌, ◌^◌, ◌++◌, true, length, IfOk, OnOk};
ghost use Rattle.pc_window.specs.Tree.{tree_size, whole};
ghost use Rattle.pc_window.specs.Names.{uses, Scoped};
ghost use Rattle.pc_window.specs.Steps.{IsProper};
ghost use Rattle.pc_window.specs.StoredWindow.{tree_in, front_in, forms_in, window_in, NodesBehind};
ghost use Rattle.pc_fill.specs.FirstReady.{StandsReady};
ghost use Rattle.pc_fill.specs.Bringing.{BringsOrNot};
ghost use Rattle.pc_fill.specs.models.Landing.{ComesWith, landed_window};
ghost use Rattle.pc_fill.specs.models.Search.{IsReadyOrNot};
ghost use Rattle.pc_fill.specs.models.Way.{sides_to, depth_in, depth_behind};

use crate::first::{ReadyNode, is_ready, node_at};
use crate::jump::come;
use crate::readiness::size_up_to;
use crate::room::count_front;
use crate::twin::{Seeker, has_twin_at};
use crate::walk::Found;
use pc_window::{Window, WindowError, WindowTree};
use std::alloc::{AllocError, Global};

/// What stands at a place, if it is ready and has room.
fn ready_at(window: &Window, place: u32) -> Option<ReadyNode>
    requires scoped { Scoped (uses (whole (window_in window.now).front)) (whole (window_in window.now).front) }
    requires small { tree_size (tree_in window.now.tree) < 2 ^ 31 }
    ensures { IsReadyOrNot (uses (whole (window_in window.now).front)) (window_in window.now) place result }
{
    let Some(it) = node_at(&window.tree, place) else {
        return None;
    };
    let counts = count_front(&window.tree);
    if !is_ready(window, counts, place, it) {
        return None;
    }
    Some(ReadyNode {
        tag: it.tag,
        origin: it.origin,
        place,
        item: it.item,
    })
}

/// Whether what is ready may come alone, or has a twin at this place.
#[tactic(auto, using(crate::proofs::TwinPlaces::coming))]
fn may_come_with(window: &Window, ready: ReadyNode, twin: Option<u32>) -> bool
    requires small { tree_size (tree_in window.now.tree) < 2 ^ 31 }
    requires names { length window.now.names.forms < 2 ^ 31 }
    ensures { (result ≡ true) ↔ ComesWith (forms_in window.now.names.forms) (length window.now.names.forms) ready.tag ready.origin ready.item (front_in window.now.tree) ready.place twin }
{
    let Some(twin) = twin else {
        return true;
    };
    let Some(item) = ready.item else {
        return false;
    };
    let seeker = Seeker {
        tag: ready.tag,
        origin: ready.origin,
        item,
    };
    has_twin_at(&window.tree, &window.names, seeker, ready.place, twin)
}

/// Writes the sides that lead to a place, from the root down, behind what is written.
#[tactic(auto, using(crate::proofs::WayTo::sides))]
fn write_sides_to(tree: &WindowTree, place: u32, way: &mut Vec<bool>) -> Result<(), AllocError>
    ensures { OnOk result (way.new.items ≡ way.old.items ++ sides_to (tree_in tree.now) place) }
{
    if place == 0 {
        return Ok(());
    }
    match tree {
        WindowTree::Step { rest, .. } => write_sides_to(rest, place - 1, way),
        WindowTree::Test { yes, no, .. } => {
            let on_yes = size_up_to(yes, place);
            if place - 1 < on_yes {
                way.push(true)?;
                return write_sides_to(yes, place - 1, way);
            }
            way.push(false)?;
            write_sides_to(no, place - 1 - on_yes, way)
        }
        WindowTree::Node { below } => write_sides_to(below, place, way),
        WindowTree::Exit { .. } => Ok(()),
        WindowTree::Stop => Ok(()),
        WindowTree::Trap { .. } => Ok(()),
    }
}

/// How many items stand above a place of a tree.
#[tactic(auto, using(crate::proofs::WayTo::depths))]
fn depth_in(tree: &WindowTree, place: u32) -> u32
    ensures depth { result ≡ depth_in (tree_in tree.now) place }
    ensures few { result ≤ place }
{
    if place == 0 {
        return 0;
    }
    match tree {
        WindowTree::Step { rest, .. } => 1 + depth_in(rest, place - 1),
        WindowTree::Test { yes, no, .. } => {
            let on_yes = size_up_to(yes, place);
            if place - 1 < on_yes {
                return depth_in(yes, place - 1);
            }
            depth_in(no, place - 1 - on_yes)
        }
        WindowTree::Node { below } => depth_in(below, place),
        WindowTree::Exit { .. } => 0,
        WindowTree::Stop => 0,
        WindowTree::Trap { .. } => 0,
    }
}

/// How many items stand above a place of a window behind its front.
#[tactic(auto, using(crate::proofs::WayTo::behind))]
fn depth_behind(tree: &WindowTree, place: u32) -> u32
    ensures { result ≡ depth_behind (front_in tree.now) place }
{
    match tree {
        WindowTree::Step { rest, .. } => {
            if place == 0 {
                return 0;
            }
            depth_behind(rest, place - 1)
        }
        WindowTree::Test { yes, no, .. } => {
            if place == 0 {
                return 0;
            }
            let on_yes = size_up_to(yes, place);
            if place - 1 < on_yes {
                return depth_behind(yes, place - 1);
            }
            depth_behind(no, place - 1 - on_yes)
        }
        WindowTree::Node { below } => depth_in(below, place),
        WindowTree::Exit { .. } => 0,
        WindowTree::Stop => 0,
        WindowTree::Trap { .. } => 0,
    }
}

/// What is ready comes, alone or with this twin.
#[tactic(auto, using(crate::proofs::WayTo::reaching))]
fn bring_ready(
    alloc: Global,
    window: Window,
    ready: ReadyNode,
    twin: Option<u32>,
) -> Result<Window, AllocError>
    requires nodes { NodesBehind window.tree }
    requires names { length window.names.forms < 2 ^ 31 }
    requires variables { window.names.next_variable < 2 ^ 31 }
    requires stands { StandsReady (uses (whole (window_in window).front)) (window_in window) ready }
    ensures lands { IfOk result (λ later. window_in later ≡ landed_window (window_in window) ready twin) }
    ensures nodes { IfOk result (λ later. NodesBehind later.tree) }
{
    let mut way = Vec::new(alloc);
    write_sides_to(&window.tree, ready.place, &mut way)?;
    let found = Found {
        tag: ready.tag,
        origin: ready.origin,
        depth: depth_behind(&window.tree, ready.place),
        item: ready.item,
    };
    come(alloc, window, found, &way, twin)
}

/// Brings what stands at a preorder place of a window into its front, as a jump of filling would: alone, or as one with
/// its twin, an equal item of the same tag and origin at this preorder place of the no side, where it stands right behind
/// a test of the front on the yes side. `None` exactly where it may not come so, or the front has no room. It takes time
/// in proportion to the window's size, times the items that are passed.
pub fn bring(
    alloc: Global,
    window: Window,
    place: u32,
    twin: Option<u32>,
) -> Result<Option<Window>, WindowError>
    requires proper { IsProper (window_in window) }
    requires small { tree_size (tree_in window.tree) < 2 ^ 31 }
    requires nodes { NodesBehind window.tree }
    requires names { length window.names.forms < 2 ^ 31 }
    requires variables { window.names.next_variable < 2 ^ 31 }
    ensures { IfOk result (λ later. BringsOrNot place twin (window_in window) later) }
{
    let Some(ready) = ready_at(&window, place) else {
        return Ok(None);
    };
    if !may_come_with(&window, ready, twin) {
        return Ok(None);
    }
    let later = bring_ready(alloc, window, ready, twin)?;
    Ok(Some(later))
}
