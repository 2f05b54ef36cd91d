//! Windows that follow one another: each is left behind the front of one that was filled.
ghost use Rattle.std.specs.Prelude.{◌<◌, true, length, IfOk};
ghost use Rattle.pc_word.specs.Ranges.{AreLimits};
ghost use Rattle.pc_window.specs.Steps.{IsProper};
ghost use Rattle.pc_window.specs.StoredWindow.{window_in, InNodes};

use pc_rebase::rebase;
use pc_replay::ReplayError;
use pc_table::RegionTable;
use pc_unify::tidy;
use pc_unwind::unwind;
use pc_window::{Window, WindowError};
use pc_window_specimen::may_be_unwound;
use pc_word::Limits;
use std::alloc::Global;

/// How many turns of a loop stand in a window.
pub(crate) const TURNS: u8 = 4;

/// The window of a region, with so many turns of its loop where it heads an innermost one.
pub(crate) fn unwound(
    alloc: Global,
    table: &RegionTable,
    region: u32,
    limits: Limits,
    turns: u8,
) -> Result<Window, WindowError>
    requires there { region < length table.now.regions }
    requires limits { AreLimits limits }
    ensures proper { IfOk result (λ window. IsProper (window_in window)) }
    ensures nodes { IfOk result (λ window. InNodes true window.tree) }
{
    let window = Window::of_region(alloc, table, region, limits)?;
    unwind(alloc, window, table, turns)
}

/// What is left at a leaf, rebased, unwound and tidied.
pub(crate) fn brought_on(
    alloc: Global,
    table: &RegionTable,
    window: Window,
) -> Result<Window, ReplayError>
    requires proper { IsProper (window_in window) }
    requires nodes { InNodes true window.tree }
    ensures proper { IfOk result (λ later. IsProper (window_in later)) }
    ensures nodes { IfOk result (λ later. InNodes true later.tree) }
{
    let window = rebase(alloc, window)?;
    if !may_be_unwound(alloc, table, &window)? {
        return Err(ReplayError::TooLarge);
    }
    let window = unwind(alloc, window, table, TURNS)?;
    let window = tidy(alloc, window)?;
    Ok(window)
}
