//! The walk by which filling finds the first item or test that is ready and has room: it looks up what
//! is known in a table, and writes down the way to what it finds.
ghost use Rattle.std.specs.Prelude.{◌≡◌, ◌↔◌, ◌<◌, ◌+◌, ◌^◌, ℕ, true, Some, None, ◌∷◌, [], OnOk, IfOk};
ghost use Rattle.pc_word.specs.Items.{operands_of};
ghost use Rattle.pc_window.specs.Tree.{tree_size};
ghost use Rattle.pc_window.specs.StoredWindow.{tree_in, front_in, window_in};
ghost use Rattle.pc_fill.specs.models.Places.{known_in, MayPass, MayCross};
ghost use Rattle.pc_fill.specs.models.Search.{comes_before};
ghost use Rattle.pc_fill.specs.models.Path.{sides_of};
ghost use Rattle.pc_fill.specs.models.Walk.{forms_of, IsReadyThere, placed, LooksAt, LooksBehind, LooksBelow, LooksThrough, FindsFirst};
ghost use Rattle.pc_fill.specs.models.TagOrder.{TagsInOrderBehind, comes_later};

use crate::first::precedes;
use crate::known::{is_known, reads_known};
use crate::path::{Path, is_plain, may_come_along, write_sides};
use crate::room::{Counts, count_front, has_item_room, has_room};
use pc_window::{Window, WindowTree};
use pc_word::{Item, Operand};
use std::alloc::{AllocError, Global};

/// What stays the same during a search: the window, the names that are known before it, the counts of
/// its front, and whether tags are known never to fall on the way down behind it.
#[derive(Drop)]
pub(crate) struct Setting<'a> {
    pub(crate) window: &'a Window,
    pub(crate) known: &'a [bool],
    pub(crate) counts: Counts,
    pub(crate) in_order: bool,
}

/// What a search found, by the way that leads to it: its tag and its origin, how many items stand
/// above it behind the front, and the item, or `None` where it is a test.
#[derive(Clone, Copy, Debug)]
pub(crate) struct Found {
    pub(crate) tag: u32,
    pub(crate) origin: u32,
    pub(crate) depth: u32,
    pub(crate) item: Option<Item>,
}

/// How far a search has come: the first that was found, and the sides of the tests above it, from
/// the root down.
#[derive(Debug, Drop)]
pub(crate) struct Search {
    pub(crate) best: Option<Found>,
    pub(crate) way: Vec<bool>,
}

/// Whether a tag and an origin come before those of what was found.
fn comes_before(tag: u32, origin: u32, best: Option<Found>) -> bool
    ensures { (place : ℕ) → result ≡ comes_before tag origin (placed best place) }
{
    match best {
        None => true,
        Some(best) => precedes(tag, origin, best.tag, best.origin),
    }
}

/// Whether an item is ready and has room where this path leads to it.
#[tactic(auto, using(crate::proofs::Looked::ready))]
fn is_item_ready(setting: &Setting, path: &Path, item: Item) -> bool
    ensures { (result ≡ true) ↔ IsReadyThere setting.now path.now (Some item) (operands_of item) }
{
    if !reads_known(setting.known, item) {
        return false;
    }
    if !has_room(setting.counts, setting.window.limits, Some(item)) {
        return false;
    }
    if is_plain(item) {
        return true;
    }
    may_come_along(&setting.window.names, path, Some(item))
}

/// Whether a test is ready and has room where this path leads to it.
#[tactic(auto, using(crate::proofs::Looked::ready))]
fn is_test_ready(setting: &Setting, path: &Path, on: Operand) -> bool
    ensures { (result ≡ true) ↔ IsReadyThere setting.now path.now None (on ∷ []) }
{
    if !is_known(setting.known, on) {
        return false;
    }
    if !has_room(setting.counts, setting.window.limits, None) {
        return false;
    }
    may_come_along(&setting.window.names, path, None)
}

/// Takes what is found where a path leads for the first.
fn keep(search: &mut Search, path: &Path, found: Found) -> Result<(), AllocError>
    ensures best { OnOk result (search.new.best ≡ Some found) }
    ensures way { OnOk result (search.new.way.items ≡ sides_of path.now) }
{
    search.way.clear();
    write_sides(path, &mut search.way)?;
    search.best = Some(found);
    Ok(())
}

/// What is found once an item was looked at.
#[tactic(auto, using(crate::proofs::Looked::looking))]
fn look_at_item(
    setting: &Setting,
    path: &Path,
    search: &mut Search,
    tag: u32,
    origin: u32,
    depth: u32,
    item: Item,
) -> Result<(), AllocError>
    ensures { OnOk result (LooksAt setting.now path.now depth (record { tag = tag; origin = origin; what = Some item; operands = operands_of item }) search.old search.new) }
{
    if !comes_before(tag, origin, search.best) {
        return Ok(());
    }
    if !is_item_ready(setting, path, item) {
        return Ok(());
    }
    let found = Found {
        tag,
        origin,
        depth,
        item: Some(item),
    };
    keep(search, path, found)
}

/// What is found once a test was looked at.
#[tactic(auto, using(crate::proofs::Looked::looking))]
fn look_at_test(
    setting: &Setting,
    path: &Path,
    search: &mut Search,
    tag: u32,
    origin: u32,
    depth: u32,
    on: Operand,
) -> Result<(), AllocError>
    ensures { OnOk result (LooksAt setting.now path.now depth (record { tag = tag; origin = origin; what = None; operands = on ∷ [] }) search.old search.new) }
{
    if !comes_before(tag, origin, search.best) {
        return Ok(());
    }
    if !is_test_ready(setting, path, on) {
        return Ok(());
    }
    let found = Found {
        tag,
        origin,
        depth,
        item: None,
    };
    keep(search, path, found)
}

/// Whether an item or test of this tag, and all that stands below it, is known to come later than
/// what was found.
fn comes_later(in_order: bool, best: Option<Found>, tag: u32) -> bool
    ensures { result ≡ comes_later in_order best tag }
{
    match best {
        None => false,
        Some(best) => in_order && best.tag < tag,
    }
}

/// What is found once a tree behind the front was looked through, below so many items.
///
/// What comes later than what was found, with all below it, is passed over. Nothing below a test is
/// ready where items have no room, since a test may not come up above another one.
#[cycle(looking)]
#[tactic(auto, using(crate::proofs::Walked::walking))]
fn look_behind(
    tree: &WindowTree,
    setting: &Setting,
    path: &Path,
    depth: u32,
    search: &mut Search,
) -> Result<(), AllocError>
    requires { depth + tree_size (tree_in tree.now) < 2 ^ 31 }
    ensures { OnOk result (LooksBehind setting.now path.now depth (tree_in tree.now) search.old search.new) }
{
    match tree {
        WindowTree::Step {
            tag,
            origin,
            item,
            rest,
        } => {
            if comes_later(setting.in_order, search.best, *tag) {
                return Ok(());
            }
            look_at_item(setting, path, search, *tag, *origin, depth, *item)?;
            look_below_item(rest, setting, path, *item, depth + 1, search)
        }
        WindowTree::Test {
            tag,
            origin,
            on,
            yes,
            no,
        } => {
            if comes_later(setting.in_order, search.best, *tag) {
                return Ok(());
            }
            look_at_test(setting, path, search, *tag, *origin, depth, *on)?;
            if !has_item_room(setting.counts, setting.window.limits) {
                return Ok(());
            }
            look_at_side(yes, setting, path, true, depth, search)?;
            look_at_side(no, setting, path, false, depth, search)
        }
        WindowTree::Node { below } => look_behind(below, setting, path, depth, search),
        WindowTree::Exit { .. } => Ok(()),
        WindowTree::Stop => Ok(()),
        WindowTree::Trap { .. } => Ok(()),
    }
}

/// The same below an item.
#[cycle(looking)]
#[tactic(auto, using(crate::proofs::Walked::walking))]
fn look_below_item(
    tree: &WindowTree,
    setting: &Setting,
    path: &Path,
    item: Item,
    depth: u32,
    search: &mut Search,
) -> Result<(), AllocError>
    requires { depth + tree_size (tree_in tree.now) < 2 ^ 31 }
    ensures { OnOk result (LooksBelow setting.now path.now (MayPass (forms_of setting.now) item) [] depth (tree_in tree.now) search.old search.new) }
{
    if is_plain(item) {
        return look_behind(tree, setting, path, depth, search);
    }
    let below = Path::Passed {
        item,
        above: &*path,
    };
    look_behind(tree, setting, &below, depth, search)
}

/// The same on a side of a test.
#[cycle(looking)]
#[tactic(auto, using(crate::proofs::Walked::walking))]
fn look_at_side(
    tree: &WindowTree,
    setting: &Setting,
    path: &Path,
    side: bool,
    depth: u32,
    search: &mut Search,
) -> Result<(), AllocError>
    requires { depth + tree_size (tree_in tree.now) < 2 ^ 31 }
    ensures { OnOk result (LooksBelow setting.now path.now MayCross (side ∷ []) depth (tree_in tree.now) search.old search.new) }
{
    let below = Path::Crossed {
        side,
        above: &*path,
    };
    look_behind(tree, setting, &below, depth, search)
}

/// What is found once the front was gone through, and what stands behind it looked at.
#[tactic(auto, using(crate::proofs::WalkedFront::going))]
fn look_through(
    tree: &WindowTree,
    setting: &Setting,
    path: &Path,
    search: &mut Search,
) -> Result<(), AllocError>
    requires { tree_size (tree_in tree.now) < 2 ^ 31 }
    ensures { OnOk result (LooksThrough setting.now path.now (tree_in tree.now) (front_in tree.now) search.old search.new) }
{
    match tree {
        WindowTree::Step { item, rest, .. } => {
            if is_plain(*item) {
                return look_through(rest, setting, path, search);
            }
            let below = Path::Issued {
                item: *item,
                above: &*path,
            };
            look_through(rest, setting, &below, search)
        }
        WindowTree::Test { yes, no, .. } => {
            let on_yes = Path::Chosen {
                side: true,
                above: &*path,
            };
            look_through(yes, setting, &on_yes, search)?;
            let on_no = Path::Chosen {
                side: false,
                above: &*path,
            };
            look_through(no, setting, &on_no, search)
        }
        WindowTree::Node { below } => look_behind(below, setting, path, 0, search),
        WindowTree::Exit { .. } => Ok(()),
        WindowTree::Stop => Ok(()),
        WindowTree::Trap { .. } => Ok(()),
    }
}

/// The first of all, and the way to it, where these names are known before the window, and tags are
/// said never to fall behind its front, or nothing is said of them.
pub(crate) fn first_known(
    alloc: Global,
    window: &Window,
    known: &[bool],
    in_order: bool,
) -> Result<Search, AllocError>
    requires small { tree_size (tree_in window.now.tree) < 2 ^ 31 }
    requires in_order { in_order ≡ true → TagsInOrderBehind (front_in window.now.tree) }
    ensures { IfOk result (λ search. FindsFirst (known_in known.now) (window_in window.now) search.best search.way.items) }
{
    let setting = Setting {
        window,
        known,
        counts: count_front(&window.tree),
        in_order,
    };
    let mut search = Search {
        best: None,
        way: Vec::new(alloc),
    };
    look_through(&window.tree, &setting, &Path::Root, &mut search)?;
    Ok(search)
}
