//! Filling a window.
ghost use Rattle.std.specs.Prelude.{◌≡◌, ◌<◌, ◌+◌, true, IfOk};
ghost use Rattle.pc_table.specs.Table.{Table};
ghost use Rattle.pc_window.specs.Tree.{whole};
ghost use Rattle.pc_window.specs.Names.{parameters_of};
ghost use Rattle.pc_window.specs.Filled.{Filled};
ghost use Rattle.pc_window.specs.Kept.{FillKeeps};
ghost use Rattle.pc_window.specs.Steps.{IsProper, FillsTo};
ghost use Rattle.pc_window.specs.StoredWindow.{front_in, window_in};
ghost use Rattle.pc_fill.specs.models.TagOrder.{TagsInOrderBehind};
ghost use Rattle.pc_fill.specs.Fillable.{IsFillable, FilledFrom, above_front};
ghost use Rattle.pc_fill.specs.models.Places.{known_in};
ghost use Rattle.pc_fill.specs.models.CanFill.{CanFill, GrowsTo};

use crate::jump::jump;
use crate::known::known_names;
use crate::tag_order::are_tags_in_order_behind;
use crate::walk::first_known;
use pc_window::{Window, WindowError, parameters_of};
use pc_word::Limits;
use std::alloc::{AllocError, Global};

/// Fills a window's front: again and again the first item or test that is ready and has room comes
/// into it, until there is none. A window that is not given back, for want of memory, is dropped.
pub fn fill(alloc: Global, window: Window) -> Result<Window, WindowError>
    requires proper { IsProper (window_in window) }
    requires fillable { IsFillable window }
    ensures fills { IfOk result (λ later. FillsTo (window_in window) (window_in later)) }
    ensures proper { IfOk result (λ later. IsProper (window_in later)) }
    ensures left { IfOk result (λ later. FilledFrom window later) }
    ensures keeps { IfOk result (λ later. (table : Table) → FillKeeps table (window_in window) (window_in later)) }
{
    let parameters = parameters_of(alloc, &window.tree, window.names.forms.len())?;
    let filled = fill_from(alloc, window, parameters.as_slice())?;
    Ok(filled)
}

/// Fills a window's front, as `fill` does, where the window's parameters are known, in the order of
/// first use.
pub fn fill_from(alloc: Global, window: Window, parameters: &[u32]) -> Result<Window, WindowError>
    requires proper { IsProper (window_in window) }
    requires fillable { IsFillable window }
    requires parameters { parameters.now ≡ parameters_of (whole (window_in window).front) }
    ensures fills { IfOk result (λ later. FillsTo (window_in window) (window_in later)) }
    ensures proper { IfOk result (λ later. IsProper (window_in later)) }
    ensures left { IfOk result (λ later. FilledFrom window later) }
    ensures keeps { IfOk result (λ later. (table : Table) → FillKeeps table (window_in window) (window_in later)) }
{
    let known = known_names(alloc, &window, parameters)?;
    let most = most_in_front(window.limits);
    let few = most < 511;
    prove!(few);
    let in_order = are_tags_in_order_behind(&window.tree);
    let filled = fill_on(alloc, window, &known, in_order)?;
    Ok(filled)
}

/// How many items and tests a front may have.
fn most_in_front(limits: Limits) -> u32
    ensures most { result ≡ limits.ops + limits.tests }
    ensures few { result < above_front }
{
    limits.ops as u32 + limits.tests as u32
}

/// Goes on filling a window, where these names are known before it, and tags are said never to fall
/// behind its front, or nothing is said of them.
fn fill_on(
    alloc: Global,
    window: Window,
    known: &[bool],
    in_order: bool,
) -> Result<Window, AllocError>
    requires can { CanFill (known_in known.now) window }
    requires in_order { in_order ≡ true → TagsInOrderBehind (front_in window.tree) }
    ensures fills { IfOk result (λ later. Filled (known_in known.now) (window_in window) (window_in later)) }
    ensures grows { IfOk result (λ later. GrowsTo window later) }
{
    let search = first_known(alloc, &window, known, in_order)?;
    let Some(found) = search.best else {
        return Ok(window);
    };
    let next = jump(alloc, window, found, &search.way)?;
    std::mem::drop(search);
    fill_on(alloc, next, known, in_order)
}
