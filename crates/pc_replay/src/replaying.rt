//! Filling by single moves.
ghost use Rattle.std.specs.Prelude.{◌≡◌, Ok, None, OnOk, IfOk, IfErr};
ghost use Rattle.pc_window.specs.Steps.{IsProper};
ghost use Rattle.pc_window.specs.StoredWindow.{window_in};
ghost use Rattle.pc_replay.specs.Replaying.{ComesTo, IsSmall, NothingIsReady};

use crate::bounds::is_small;
use crate::error::ReplayError;
use crate::locating::locate;
use crate::raising::{raise, raise_once, raise_test, unify_once};
use crate::twins::twin_of;
use pc_fill::{ReadyNode, first_ready};
use pc_window::Window;
use pc_word::Item;
use std::alloc::Global;

/// One more than the items and tests that a front may have: its limits are bytes, so at most 255 of each.
const MOST_STEPS: u32 = 511;

/// An item comes into the front: alone, or as one with its twin.
#[tactic(auto, using(crate::proofs::Moved::moves))]
fn bring_item(
    alloc: Global,
    window: &mut Window,
    ready: ReadyNode,
    item: Item,
) -> Result<(), ReplayError>
    requires { IsProper (window_in window.old) }
    ensures { OnOk result (ComesTo window.old window.new) }
{
    let at = locate(alloc, &window.tree, ready.place, &[])?;
    let Some(leaf) = at.path.get(0).copied() else {
        return Err(ReplayError::NotFound);
    };
    let place = raise(alloc, window, &at.path, at.place)?;
    match twin_of(alloc, window, leaf, ready, item)? {
        None => {
            raise_once(alloc, window, &[], leaf, place)?;
            Ok(())
        }
        Some(twin) => {
            let no_place = raise(alloc, window, &twin.path, twin.place)?;
            unify_once(alloc, window, leaf, place, no_place)
        }
    }
}

/// What is first of all that is ready comes into the front.
#[tactic(auto, using(crate::proofs::Moved::moves))]
fn bring(alloc: Global, window: &mut Window, ready: ReadyNode) -> Result<(), ReplayError>
    requires { IsProper (window_in window.old) }
    ensures { OnOk result (ComesTo window.old window.new) }
{
    match ready.item {
        Some(item) => bring_item(alloc, window, ready, item),
        None => {
            let at = locate(alloc, &window.tree, ready.place, &[])?;
            raise_test(alloc, window, &at.path)
        }
    }
}

/// What is first of all that is ready, where there is something.
#[tactic(auto, using(crate::proofs::Moved::wholes))]
fn first(window: &Window) -> Result<Option<ReadyNode>, ReplayError>
    requires { IsProper (window_in window.now) }
    ensures none { IfOk result (λ found. found ≡ None → NothingIsReady window.now) }
    ensures some { IfOk result (λ found. NothingIsReady window.now → found ≡ None) }
    ensures fails { IfErr result (λ why. IsSmall window.now → ⊥) }
{
    if !is_small(window) {
        return Err(ReplayError::TooLarge);
    }
    Ok(first_ready(window))
}

/// What is ready comes into the front, one after another, until nothing is.
#[tactic(auto, using(crate::proofs::Moved::moves))]
fn bring_all(alloc: Global, window: Window, ready: ReadyNode) -> Result<Window, ReplayError>
    requires { IsProper (window_in window) }
    ensures kept { IfOk result (λ later. ComesTo window later) }
    ensures done { IfOk result NothingIsReady }
{
    let mut window = window;
    let mut ready = ready;
    for _ in 0..MOST_STEPS {
        bring(alloc, &mut window, ready)?;
        match first(&window)? {
            None => return Ok(window),
            Some(next) => ready = next,
        }
    }
    // Not reached: each thing that comes takes room of the front, which has less than this. No clause says so.
    Err(ReplayError::TooLarge)
}

/// Fills a window's front by single moves: each item and test that filling would bring into it comes
/// up node by node, and two that filling would make one become one, until nothing is ready.
///
/// It fails where a single move is refused: so where an item has an equal one on the other side of a
/// test that cannot be brought up to that test, which filling leaves where it stands. A small window in which
/// nothing is ready is given back as it is.
#[tactic(auto, using(crate::proofs::Moved::moves))]
pub fn replay(alloc: Global, window: Window) -> Result<Window, ReplayError>
    requires { IsProper (window_in window) }
    ensures kept { IfOk result (λ later. ComesTo window later) }
    ensures done { IfOk result NothingIsReady }
    ensures needless { IsSmall window → NothingIsReady window → result ≡ Ok window }
{
    match first(&window)? {
        None => Ok(window),
        Some(ready) => bring_all(alloc, window, ready),
    }
}
