//! How the window of an entry begins.
ghost use Rattle.std.specs.Prelude.{◌≡◌, ◌≤◌, ◌^◌, true, IfOk, IfSome};
ghost use Rattle.pc_word.specs.Ranges.{AreLimits};
ghost use Rattle.pc_table.specs.StoredTable.{table_of};
ghost use Rattle.pc_window.specs.StoredWindow.{window_in};
ghost use Rattle.pc_canon.specs.Keyed.{HasKey};
ghost use Rattle.pc_settling.specs.Begun.{has_room, given_loop, before_unwinding, Widens, Begins};
ghost use Rattle.pc_settling.specs.Stored.{remaining_in, some_remaining_in, some_begun_in, IsLeft, IsBegun};

use crate::entering::{entered_if, is_stub};
use crate::remaining::{Begun, Remaining};
use crate::room::has_room;
use pc_cert::Opening;
use pc_table::RegionTable;
use pc_unify::tidy;
use pc_unwind::unwind;
use pc_window::{Window, WindowError};
use pc_word::Limits;
use std::alloc::Global;

/// What is left, with this loop, where there is room.
#[tactic(auto, using(crate::proofs::BegunWindows::loops))]
fn given_loop(
    table: &RegionTable,
    inside: Option<u16>,
    left: Option<Remaining>,
) -> Option<Remaining>
    requires { IfSome left (λ it. IsLeft it.window) }
    ensures given { some_remaining_in result ≡ given_loop (table_of table.now) inside (some_remaining_in left) }
    ensures left { IfSome result (λ it. IsLeft it.window) }
    ensures room { IfSome result (λ it. has_room (table_of table.now) (window_in it.window) ≡ true) }
{
    let left = left?;
    if !has_room(table, &left.window) {
        return None;
    }
    let Remaining { window, facts } = left;
    let Window {
        tree,
        names,
        limits,
        ..
    } = window;
    let window = Window {
        tree,
        names,
        limits,
        inside,
    };
    Some(Remaining { window, facts })
}

/// What an entry with this opening begins with, before it is unwound.
fn before_unwinding(
    alloc: Global,
    table: &RegionTable,
    limits: Limits,
    opening: Opening,
    left: Remaining,
) -> Result<Option<Remaining>, WindowError>
    requires limits { AreLimits limits }
    requires left { IsLeft left.window }
    ensures before { IfOk result (λ before. some_remaining_in before ≡ before_unwinding (table_of table.now) limits opening (remaining_in left)) }
    ensures left { IfOk result (λ before. IfSome before (λ it. IsLeft it.window)) }
    ensures room { IfOk result (λ before. IfSome before (λ it. has_room (table_of table.now) (window_in it.window) ≡ true)) }
{
    let left = entered_if(alloc, table, limits, opening.enters, left)?;
    Ok(given_loop(table, opening.inside, left))
}

/// A window unwound to a number of iterations, and tidied; as it is where the number is 0.
#[tactic(auto, using(crate::proofs::BegunWindows::widening))]
fn widened(
    alloc: Global,
    table: &RegionTable,
    window: Window,
    number: u8,
) -> Result<Window, WindowError>
    requires left { IsLeft window }
    requires room { has_room (table_of table.now) (window_in window) ≡ true }
    ensures widens { IfOk result (λ later. Widens (table_of table.now) number (window_in window) (window_in later)) }
    ensures begun { IfOk result (IsBegun (table_of table.now)) }
{
    if number == 0 {
        return Ok(window);
    }
    let window = unwind(alloc, window, table, number)?;
    let window = tidy(alloc, window)?;
    Ok(window)
}

/// What an entry with this opening begins with, where this is left.
///
/// Where the opening enters, a window that is a stub alone is taken as its region, again as long as it is
/// a stub alone. The window gets the opening's loop; it is unwound to the opening's number of iterations and
/// tidied, unless that is 0. `None` where entering never ends, where a region, an array or a variable's home
/// is not as the table has it, or where the window has more than 2^29 names or form variables or a tag above that. It takes
/// time in proportion to the windows, and for each region that is entered to 96 times the facts.
#[tactic(auto, using(crate::proofs::BegunWindows::begun))]
pub fn begin(
    alloc: Global,
    table: &RegionTable,
    limits: Limits,
    opening: Opening,
    left: Remaining,
) -> Result<Option<Begun>, WindowError>
    requires limits { AreLimits limits }
    requires left { IsLeft left.window }
    ensures begins { IfOk result (λ begun. Begins (table_of table.now) limits opening (remaining_in left) (some_begun_in begun)) }
    ensures begun { IfOk result (λ begun. IfSome begun (λ it. IsBegun (table_of table.now) it.window)) }
    ensures key { IfOk result (λ begun. IfSome begun (λ it. HasKey it.window)) }
{
    let entered = opening.enters && is_stub(&left.window.tree);
    let before = before_unwinding(alloc, table, limits, opening, left)?;
    match before {
        None => Ok(None),
        Some(Remaining { window, facts }) => {
            let window = widened(alloc, table, window, opening.window)?;
            Ok(Some(Begun {
                window,
                facts,
                entered,
            }))
        }
    }
}
