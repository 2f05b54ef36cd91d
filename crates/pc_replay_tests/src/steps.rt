//! Steps of windows, each of which may be taken of a plain window and, passed on, of a shared one.
ghost use Rattle.std.specs.Prelude.{◌≡◌, ◌<◌, ◌^◌, true, IfOk};
ghost use Rattle.pc_window.specs.Steps.{IsProper};
ghost use Rattle.pc_window.specs.StoredWindow.{tree_in, window_in, InNodes, NodesBehind};
ghost use Rattle.pc_window.specs.Tree.{tree_size};

use crate::bounds::is_small;
use crate::following::TURNS;
use pc_automaton::cut_front;
use pc_fill::fill;
use pc_movecj::{move_cj, why_not as why_not_test};
use pc_moveop::{move_op, why_not};
use pc_rebase::rebase;
use pc_replay::ReplayError;
use pc_table::RegionTable;
use pc_unify::{tidy, unify, why_not_unify};
use pc_unwind::unwind;
use pc_window::{Window, WindowTree};
use pc_window_specimen::{first_rest, may_be_filled, may_be_unwound};
use std::alloc::Global;

/// A step that makes a window of a window.
#[derive(Clone, Copy, PartialEq, Eq)]
pub(crate) enum Step {
    Rebase,
    Unwind,
    Tidy,
    Fill,
    /// An item comes into the front: the first that may.
    MoveItem,
    /// A test comes into the front: the first that may.
    MoveTest,
    /// Two items behind a test of the front become one above it: the first two that may.
    Unify,
    /// What is left at the first leaf of the front that leads on.
    Cut,
}

/// The leaf and the place of an item that may come into the front.
#[derive(Clone, Copy)]
struct Mover {
    leaf: u16,
    place: u16,
}

/// The path to the front.
const FRONT: [u16; 0] = [];

/// So many leaves, and so many places behind each, are looked at for what may move.
const MOST_LOOKED_AT: u16 = 8;

/// Whether each item and test is a node of its own: at the root of a node, or below an item or test.
fn are_single(tree: &WindowTree, at_root: bool) -> bool
    ensures { (result ≡ true) → InNodes at_root tree.now }
{
    match tree {
        WindowTree::Step { rest, .. } => {
            if at_root {
                return are_single(rest, false);
            }
            false
        }
        WindowTree::Test { yes, no, .. } => {
            if at_root && are_single(yes, false) {
                return are_single(no, false);
            }
            false
        }
        WindowTree::Node { below } => {
            if at_root {
                return false;
            }
            are_single(below, true)
        }
        WindowTree::Exit { .. } => true,
        WindowTree::Stop => true,
        WindowTree::Trap { .. } => true,
    }
}

/// Whether behind the root node each item and test is a node of its own.
fn are_single_behind(tree: &WindowTree) -> bool
    ensures { (result ≡ true) → NodesBehind tree.now }
{
    match tree {
        WindowTree::Step { rest, .. } => are_single_behind(rest),
        WindowTree::Test { yes, no, .. } => {
            if are_single_behind(yes) {
                return are_single_behind(no);
            }
            false
        }
        WindowTree::Node { below } => are_single(below, true),
        WindowTree::Exit { .. } => true,
        WindowTree::Stop => true,
        WindowTree::Trap { .. } => true,
    }
}

/// Whether a leaf of the root node leads to a node.
pub(crate) fn leads_on(tree: &WindowTree) -> bool {
    match tree {
        WindowTree::Step { rest, .. } => leads_on(rest),
        WindowTree::Test { yes, no, .. } => leads_on(yes) || leads_on(no),
        WindowTree::Node { .. } => true,
        WindowTree::Exit { .. } => false,
        WindowTree::Stop => false,
        WindowTree::Trap { .. } => false,
    }
}

/// A window, rebased.
fn rebased(alloc: Global, window: Window) -> Result<Window, ReplayError>
    requires { IsProper (window_in window) }
    ensures { IfOk result (λ later. IsProper (window_in later)) }
{
    if !are_single(&window.tree, true) {
        return Err(ReplayError::TooLarge);
    }
    let later = rebase(alloc, window)?;
    Ok(later)
}

/// A window, unwound.
fn unwound_on(alloc: Global, table: &RegionTable, window: Window) -> Result<Window, ReplayError>
    requires { IsProper (window_in window) }
    ensures { IfOk result (λ later. IsProper (window_in later)) }
{
    if !may_be_unwound(alloc, table, &window)? {
        return Err(ReplayError::TooLarge);
    }
    let later = unwind(alloc, window, table, TURNS)?;
    Ok(later)
}

/// A window, tidied.
fn tidied(alloc: Global, window: Window) -> Result<Window, ReplayError>
    requires { IsProper (window_in window) }
    ensures { IfOk result (λ later. IsProper (window_in later)) }
{
    let later = tidy(alloc, window)?;
    Ok(later)
}

/// A window, filled.
fn filled(alloc: Global, window: Window) -> Result<Window, ReplayError>
    requires { IsProper (window_in window) }
    ensures { IfOk result (λ later. IsProper (window_in later)) }
{
    if !may_be_filled(&window) {
        return Err(ReplayError::TooLarge);
    }
    if !are_single_behind(&window.tree) {
        return Err(ReplayError::TooLarge);
    }
    let later = fill(alloc, window)?;
    Ok(later)
}

/// The first item that may come into the front.
fn first_mover(window: &Window) -> Option<Mover>
    requires { tree_size (tree_in window.now.tree) < 2 ^ 31 }
{
    for leaf in 0..MOST_LOOKED_AT {
        for place in 0..MOST_LOOKED_AT {
            if why_not(window, &FRONT, leaf, place).is_none() {
                return Some(Mover { leaf, place });
            }
        }
    }
    None
}

/// A window after such an item has come into the front. It is the same where there is none.
fn item_moved(alloc: Global, window: Window) -> Result<Window, ReplayError>
    requires { IsProper (window_in window) }
    ensures { IfOk result (λ later. IsProper (window_in later)) }
{
    if !is_small(&window) {
        return Err(ReplayError::TooLarge);
    }
    let Some(Mover { leaf, place }) = first_mover(&window) else {
        return Ok(window);
    };
    let mut window = window;
    move_op(alloc, &mut window, &FRONT, leaf, place)?;
    Ok(window)
}

/// The first leaf of the front behind which a test may come into it.
fn first_test(window: &Window) -> Option<u16>
    requires { tree_size (tree_in window.now.tree) < 2 ^ 31 }
{
    for leaf in 0..MOST_LOOKED_AT {
        if why_not_test(window, &FRONT, leaf).is_none() {
            return Some(leaf);
        }
    }
    None
}

/// A window after such a test has come into the front. It is the same where there is none.
fn test_moved(alloc: Global, window: Window) -> Result<Window, ReplayError>
    requires { IsProper (window_in window) }
    ensures { IfOk result (λ later. IsProper (window_in later)) }
{
    if !is_small(&window) {
        return Err(ReplayError::TooLarge);
    }
    let Some(leaf) = first_test(&window) else {
        return Ok(window);
    };
    let mut window = window;
    move_cj(alloc, &mut window, &FRONT, leaf)?;
    Ok(window)
}

/// The first leaf of the front that is the yes leaf of a test on whose two sides the first items may become
/// one.
fn first_twins(window: &Window) -> Option<u16>
    requires { tree_size (tree_in window.now.tree) < 2 ^ 31 }
{
    for leaf in 0..MOST_LOOKED_AT {
        if why_not_unify(window, &FRONT, leaf, 0, 0).is_none() {
            return Some(leaf);
        }
    }
    None
}

/// A window after such items have become one. It is the same where there are none.
fn unified(alloc: Global, window: Window) -> Result<Window, ReplayError>
    requires { IsProper (window_in window) }
    ensures { IfOk result (λ later. IsProper (window_in later)) }
{
    if !is_small(&window) {
        return Err(ReplayError::TooLarge);
    }
    let Some(leaf) = first_twins(&window) else {
        return Ok(window);
    };
    let mut window = window;
    unify(alloc, &mut window, &FRONT, leaf, 0, 0)?;
    Ok(window)
}

/// What is left of a window at the first leaf of the front that leads on.
fn cut(alloc: Global, table: &RegionTable, window: Window) -> Result<Window, ReplayError>
    requires { IsProper (window_in window) }
    ensures { IfOk result (λ later. IsProper (window_in later)) }
{
    if !are_single_behind(&window.tree) {
        return Err(ReplayError::TooLarge);
    }
    let row = cut_front(alloc, window, table)?;
    match first_rest(row) {
        Some(rest) => Ok(rest),
        None => Err(ReplayError::NotFound),
    }
}

impl Step {
    /// The window after the step. `TooLarge` also where its nodes are not single.
    pub(crate) fn take(
        self,
        alloc: Global,
        table: &RegionTable,
        window: Window,
    ) -> Result<Window, ReplayError>
        requires { IsProper (window_in window) }
        ensures { IfOk result (λ later. IsProper (window_in later)) }
    {
        match self {
            Step::Rebase => rebased(alloc, window),
            Step::Unwind => unwound_on(alloc, table, window),
            Step::Tidy => tidied(alloc, window),
            Step::Fill => filled(alloc, window),
            Step::MoveItem => item_moved(alloc, window),
            Step::MoveTest => test_moved(alloc, window),
            Step::Unify => unified(alloc, window),
            Step::Cut => cut(alloc, table, window),
        }
    }
}
