//! The walk through what stands behind a window's front.
ghost use Rattle.std.specs.Prelude.{◌≡◌, ◌∷◌, [], ℕ, Some, None, OnOk, IfOk};
ghost use Rattle.pc_word.specs.declared.item.Item.{Item};
ghost use Rattle.pc_word.specs.declared.item.Operand.{Operand};
ghost use Rattle.pc_word.specs.Items.{operand_list};
ghost use Rattle.pc_window.specs.StoredWindow.{tree_in, front_in, window_in};
ghost use Rattle.pc_waiting.specs.Waiting.{FirstObstacle, WhatWaits};
ghost use Rattle.pc_waiting.specs.models.Path.{path_in};
ghost use Rattle.pc_waiting.specs.models.Walk.{forms_of, LooksAt, LooksBehind, LooksThrough};

use crate::WaitingList;
use crate::obstacle::{Obstacle, Waiting};
use crate::path::{Above, Kind, Path, first_in_way, needed};
use crate::room::Room;
use pc_window::{NameTable, Window, WindowTree};
use pc_word::{Item, Operands, OutOfMemory};
use std::alloc::{AllocError, Global};

/// What stays the same during a walk: the names of the window, the iteration from which iterations are counted, and what the front
/// has room for.
#[derive(Drop)]
pub(crate) struct Setting<'a> {
    names: &'a NameTable,
    first: u32,
    room: Room,
}

/// The first obstacle of an item, or of a test, that reads these operands, where a path leads to it.
#[tactic(auto, using(crate::proofs::Looked::obstacles))]
fn first_obstacle(
    setting: &Setting,
    path: &Path,
    what: Option<Item>,
    operands: Operands,
) -> Option<Obstacle>
    ensures { FirstObstacle (forms_of setting.now) setting.now.first setting.now.room (path_in path.now) what (operand_list operands) result }
{
    if let Some(obstacle) = needed(path, setting.first, operands) {
        return Some(obstacle);
    }
    if let Some(obstacle) = first_in_way(setting.names, path, setting.first, what) {
        return Some(obstacle);
    }
    setting.room.lacking(what)
}

/// Appends an item, or a test, to what waits, if it has an obstacle.
#[tactic(auto, using(crate::proofs::Looked::looking))]
fn look_at(
    setting: &Setting,
    path: &Path,
    tag: u32,
    origin: u32,
    what: Option<Item>,
    operands: Operands,
    waiting: &mut WaitingList,
) -> Result<(), AllocError>
    ensures { OnOk result (LooksAt setting.now (path_in path.now) tag origin what (operand_list operands) waiting.old waiting.new) }
{
    let Some(obstacle) = first_obstacle(setting, path, what, operands) else {
        return Ok(());
    };
    waiting.push(Waiting {
        iteration: tag.saturating_sub(setting.first),
        origin,
        what,
        obstacle,
    })?;
    Ok(())
}

/// Appends what waits in a tree behind the front, where a path leads to it.
#[tactic(auto, using(crate::proofs::Walked::walking))]
fn look_behind(
    tree: &WindowTree,
    setting: &Setting,
    path: &Path,
    waiting: &mut WaitingList,
) -> Result<(), AllocError>
    ensures { OnOk result (LooksBehind setting.now (path_in path.now) (tree_in tree.now) waiting.old waiting.new) }
{
    match tree {
        WindowTree::Step {
            tag,
            origin,
            item,
            rest,
        } => {
            look_at(
                setting,
                path,
                *tag,
                *origin,
                Some(*item),
                item.operands(),
                waiting,
            )?;
            let last = Above {
                tag: *tag,
                origin: *origin,
                kind: Kind::Pending(*item),
            };
            let below = Path::Below { last, path: &*path };
            look_behind(rest, setting, &below, waiting)?;
            Ok(())
        }
        WindowTree::Test {
            tag,
            origin,
            on,
            yes,
            no,
        } => {
            look_at(
                setting,
                path,
                *tag,
                *origin,
                None,
                Operands::One(*on),
                waiting,
            )?;
            let last = Above {
                tag: *tag,
                origin: *origin,
                kind: Kind::Undecided,
            };
            let below = Path::Below { last, path: &*path };
            look_behind(yes, setting, &below, waiting)?;
            look_behind(no, setting, &below, waiting)?;
            Ok(())
        }
        WindowTree::Node { below } => look_behind(below, setting, path, waiting),
        WindowTree::Exit { .. } => Ok(()),
        WindowTree::Stop => Ok(()),
        WindowTree::Trap { .. } => Ok(()),
    }
}

/// Goes through a part of the front, where a path leads to it, and appends what waits behind it.
#[tactic(auto, using(crate::proofs::Walked::going))]
fn look_through(
    tree: &WindowTree,
    setting: &Setting,
    path: &Path,
    waiting: &mut WaitingList,
) -> Result<(), AllocError>
    ensures { OnOk result (LooksThrough setting.now (path_in path.now) (front_in tree.now) waiting.old waiting.new) }
{
    match tree {
        WindowTree::Step {
            tag,
            origin,
            item,
            rest,
        } => {
            let last = Above {
                tag: *tag,
                origin: *origin,
                kind: Kind::Issued(*item),
            };
            let below = Path::Below { last, path: &*path };
            look_through(rest, setting, &below, waiting)?;
            Ok(())
        }
        WindowTree::Test { yes, no, .. } => {
            look_through(yes, setting, path, waiting)?;
            look_through(no, setting, path, waiting)?;
            Ok(())
        }
        WindowTree::Node { below } => look_behind(below, setting, path, waiting),
        WindowTree::Exit { .. } => Ok(()),
        WindowTree::Stop => Ok(()),
        WindowTree::Trap { .. } => Ok(()),
    }
}

/// What waits behind a window's front, and why: an entry, in preorder, for each item and test that stands behind the front and has an
/// obstacle, with the first one. An obstacle is first sought in what it reads, then in what stands above it, from the root down, and
/// then in the room that the front has left. Where an item stands behind several leaves, it has an entry for each of them.
///
/// Iterations are tags counted from `first`, and 0 below it; from the window's least tag on none is cut off. What has no entry is
/// ready and has room; in a window that was filled there is nothing like that. It takes time in proportion to the window's size times
/// the depth of its tree.
pub fn what_waits(alloc: Global, window: &Window, first: u32) -> Result<WaitingList, OutOfMemory>
    ensures { IfOk result (λ waiting. WhatWaits first (window_in window.now) waiting) }
{
    let setting = Setting {
        names: &window.names,
        first,
        room: Room::of_limits(window.limits).beside(&window.tree),
    };
    let mut waiting = WaitingList::new(alloc);
    look_through(&window.tree, &setting, &Path::Root, &mut waiting)?;
    Ok(waiting)
}
