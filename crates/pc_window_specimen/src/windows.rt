//! Windows of regions, and what is left of them.
ghost use Rattle.std.specs.Prelude.{true, IfOk, IfSome};
ghost use Rattle.pc_word.specs.Ranges.{AreLimits};
ghost use Rattle.pc_word.specs.StoredRow.{row_in, EachLeaf};
ghost use Rattle.pc_table.specs.StoredTable.{table_of};
ghost use Rattle.pc_window.specs.Steps.{IsProper, EachLeft};
ghost use Rattle.pc_window.specs.StoredWindow.{window_in, InNodes, IsJustOpened};
ghost use Rattle.pc_unwind.specs.Unwindable.{CanUnwind};
ghost use Rattle.pc_automaton.specs.StoredLeft.{left_in, LeftInNodes};

use crate::tables::{ToldTable, table};
use crate::untold::Untold;
use pc_automaton::Left;
use pc_table::RegionTable;
use pc_unwind::unwind;
use pc_window::Window;
use pc_word::{Limits, RowTree};
use std::alloc::Global;

/// The window of a region. `NoTable` where there is no such region.
pub fn opened(
    alloc: Global,
    table: &RegionTable,
    region: u32,
    limits: Limits,
) -> Result<Window, Untold>
    requires { AreLimits limits }
    ensures proper { IfOk result (λ window. IsProper (window_in window)) }
    ensures nodes { IfOk result (λ window. InNodes true window.tree) }
    ensures small { IfOk result (λ window. IsJustOpened window) }
    ensures can { IfOk result (λ window. CanUnwind (table_of table.now) (window_in window)) }
{
    if region as usize >= table.regions.len() {
        return Err(Untold::NoTable);
    }
    Ok(Window::of_region(alloc, table, region, limits)?)
}

/// The window of region 0 of a table that is told.
pub fn first_window(alloc: Global, told: &ToldTable, limits: Limits) -> Result<Window, Untold>
    requires { AreLimits limits }
    ensures proper { IfOk result (λ window. IsProper (window_in window)) }
    ensures nodes { IfOk result (λ window. InNodes true window.tree) }
    ensures small { IfOk result (λ window. IsJustOpened window) }
{
    let table = table(alloc, told)?;
    opened(alloc, &table, 0, limits)
}

/// The window of a region, with so many turns of its loop where it heads an innermost one. `NoTable` where there is no
/// such region.
pub fn unwound(
    alloc: Global,
    table: &RegionTable,
    region: u32,
    limits: Limits,
    turns: u8,
) -> Result<Window, Untold>
    requires { AreLimits limits }
    ensures proper { IfOk result (λ window. IsProper (window_in window)) }
    ensures nodes { IfOk result (λ window. InNodes true window.tree) }
{
    let window = opened(alloc, table, region, limits)?;
    Ok(unwind(alloc, window, table, turns)?)
}

/// What is left at the first leaf of a row at which a window is left.
pub fn first_rest(row: RowTree<Left>) -> Option<Window>
    requires nodes { EachLeaf LeftInNodes row }
    requires proper { EachLeft IsProper (row_in left_in row) }
    ensures nodes { IfSome result (λ window. InNodes true window.tree) }
    ensures proper { IfSome result (λ window. IsProper (window_in window)) }
{
    match row {
        RowTree::Step { next, .. } => first_rest(Box::into_inner(next)),
        RowTree::Test { yes, no, .. } => match first_rest(Box::into_inner(yes)) {
            Some(window) => Some(window),
            None => first_rest(Box::into_inner(no)),
        },
        RowTree::Leaf { leaf } => match leaf {
            Left::Rest { window } => Some(window),
            Left::Out { .. } => None,
            Left::Stop => None,
            Left::Trap { .. } => None,
        },
    }
}
