//! A window that is filled at once and by single moves.
ghost use Rattle.std.specs.Prelude.{IfOk};
ghost use Rattle.pc_window.specs.Steps.{IsProper};
ghost use Rattle.pc_window.specs.StoredWindow.{window_in, NodesBehind};
ghost use Rattle.pc_fill.specs.Fillable.{IsFillable};

use crate::bounds::is_small;
use crate::copying::copied;
use pc_canon::{WindowKey, key};
use pc_fill::fill;
use pc_replay::{ReplayError, replay};
use pc_window::Window;
use std::alloc::Global;

/// The key of a window that is not too large.
#[tactic(auto, using(pc_replay::proofs::Moved::wholes))]
pub(crate) fn key_of(alloc: Global, window: &Window) -> Result<WindowKey, ReplayError>
    requires { IsProper (window_in window.now) }
{
    if !is_small(window) {
        return Err(ReplayError::TooLarge);
    }
    let key = key(alloc, window)?;
    Ok(key)
}

/// Windows that were filled at once and by single moves.
#[derive(Clone, Copy, Debug)]
pub(crate) struct Compared {
    /// Filling changed so many of them.
    pub(crate) changed: u32,
    /// Both ways led to windows that are the same, up to names.
    pub(crate) alike: bool,
}

/// No windows so far.
pub(crate) const NONE_COMPARED: Compared = Compared {
    changed: 0,
    alike: true,
};

/// Fills a window at once, and a copy of it by single moves.
pub(crate) fn compare(
    alloc: Global,
    window: Window,
    all: &mut Compared,
) -> Result<Window, ReplayError>
    requires proper { IsProper (window_in window) }
    requires fillable { IsFillable window }
    ensures proper { IfOk result (λ filled. IsProper (window_in filled)) }
    ensures nodes { IfOk result (λ filled. NodesBehind filled.tree) }
{
    let same = copied(alloc, &window)?;
    let before = key_of(alloc, &window)?;
    let filled = fill(alloc, window)?;
    let at_once = key_of(alloc, &filled)?;
    let replayed = replay(alloc, same)?;
    let by_moves = key_of(alloc, &replayed)?;
    if at_once.bytes.as_slice() != before.bytes.as_slice() {
        all.changed = all.changed.saturating_add(1);
    }
    if by_moves.bytes.as_slice() != at_once.bytes.as_slice() {
        all.alike = false;
    }
    Ok(filled)
}
