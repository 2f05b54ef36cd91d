//! From where a row is gone on.
ghost use Rattle.std.specs.Prelude.{IfOk, IfSome};
ghost use Rattle.pc_word.specs.Ranges.{AreLimits};
ghost use Rattle.pc_table.specs.StoredTable.{table_of};
ghost use Rattle.pc_arranging.specs.CanArrange.{ArrangedIn};
ghost use Rattle.pc_settling.specs.Stored.{IsLeft, IsBegun};
ghost use Rattle.pc_canon.specs.Keyed.{HasKey};

use crate::undone::copied;
use pc_arranging::do_steps;
use pc_canon::{WindowKey, key};
use pc_cert::{Fact, Opening, Step};
use pc_matching::FactList;
use pc_settling::{Begun, Remaining, begin, facts_of_entry};
use pc_table::RegionTable;
use pc_window::Window;
use pc_word::{Limits, OutOfMemory};
use std::alloc::Global;

/// From where a row is gone on: the table, the limits of rows, what was left there, and how its window begins.
#[derive(Clone, Copy)]
pub(crate) struct Start<'a> {
    pub(crate) table: &'a RegionTable,
    pub(crate) limits: Limits,
    pub(crate) left: &'a Window,
    pub(crate) opening: Opening,
    /// Whether the loop of the opening is another than that of what was left, so that stubs which were left lead into it
    /// from outside.
    pub(crate) crosses: bool,
}

/// The window with which a row begins, if it does.
fn begun_at(alloc: Global, start: Start) -> Result<Option<Window>, OutOfMemory>
    requires limits { AreLimits start.limits }
    requires left { IsLeft start.left.now }
    ensures begun { IfOk result (λ begun. IfSome begun (IsBegun (table_of start.entry.table.now))) }
    ensures key { IfOk result (λ begun. IfSome begun HasKey) }
{
    let window = copied(alloc, start.left)?;
    let facts = FactList::new(alloc);
    let left = Remaining { window, facts };
    let begun = begin(alloc, start.table, start.limits, start.opening, left)?;
    match begun {
        None => Ok(None),
        Some(Begun { window, .. }) => Ok(Some(window)),
    }
}

/// A window with which a row begins, arranged by steps, if they are legal.
fn arranged_by(
    alloc: Global,
    table: &RegionTable,
    window: Window,
    steps: &[Step],
) -> Result<Option<Window>, OutOfMemory>
    requires { IsBegun (table_of table.now) window }
    ensures { IfOk result (λ later. ArrangedIn (table_of table.now) later) }
{
    do_steps(alloc, table, window, steps)
}

/// The window with which a row begins, arranged by steps, if they are legal.
pub(crate) fn arranged(
    alloc: Global,
    start: Start,
    steps: &[Step],
) -> Result<Option<Window>, OutOfMemory>
    requires limits { AreLimits start.limits }
    requires left { IsLeft start.left.now }
    ensures { IfOk result (λ later. ArrangedIn (table_of start.entry.table.now) later) }
{
    let Some(window) = begun_at(alloc, start)? else {
        return Ok(None);
    };
    arranged_by(alloc, start.table, window, steps)
}

/// The key of the window with which a row begins, if it does.
pub(crate) fn key_there(alloc: Global, start: Start) -> Result<Option<Vec<u8>>, OutOfMemory>
    requires limits { AreLimits start.limits }
    requires left { IsLeft start.left.now }
{
    let Some(window) = begun_at(alloc, start)? else {
        return Ok(None);
    };
    let WindowKey { bytes, .. } = key(alloc, &window)?;
    Ok(Some(bytes))
}

/// A row's facts on the names of its window.
pub(crate) fn facts_there(
    alloc: Global,
    start: Start,
    facts: &[Fact],
) -> Result<Option<FactList>, OutOfMemory>
    requires limits { AreLimits start.limits }
    requires left { IsLeft start.left.now }
{
    let Some(window) = begun_at(alloc, start)? else {
        return Ok(None);
    };
    facts_of_entry(alloc, &window, facts)
}
