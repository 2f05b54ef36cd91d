//! The schedules of chosen forms, found again.
ghost use Rattle.std.specs.Prelude.{◌≡◌, ◌<◌, length, Some, IfOk, IfSome};
ghost use Rattle.pc_word.specs.Ranges.{AreLimits, IsExtent};
ghost use Rattle.pc_automaton.specs.Automaton.{states_in};
ghost use Rattle.pc_cycles.specs.Cycles.{AreScheduled};
ghost use Rattle.pc_table.specs.StoredTable.{table_of};
ghost use Rattle.pc_explain.specs.Explained.{search_extent, schedule_in, IsScheduleOf};
ghost use Rattle.pc_explain.specs.models.Searched.{IsSearched, IsCompleted};

use crate::explanation::Schedule;
use pc_compile::Form;
use pc_cycles::cycles;
use pc_flow::Flow;
use pc_pattern::SearchError;
use pc_table::RegionTable;
use pc_told::{Told, tell};
use pc_variables::variables;
use pc_word::{Extent, Limits, MOST_ROWS, OutOfMemory};
use std::alloc::Global;

/// The extent of the search that finds the states of a form; a plain form has none.
pub(crate) fn search_extent(extent: Extent, form: Form) -> Option<Extent>
    requires { IsExtent extent }
    ensures search { result ≡ search_extent extent form }
    ensures within { IfSome result IsExtent }
{
    match form {
        Form::Pipelined { .. } => Some(extent),
        Form::Packed => Some(Extent {
            window: 1,
            rows: MOST_ROWS as u16,
        }),
        Form::Plain => None,
    }
}

/// The schedule that a search finds for a region of a flow graph's table, where it is known that it finds one.
pub(crate) fn schedule(
    alloc: Global,
    flow: &Flow,
    table: &RegionTable,
    region: u32,
    limits: Limits,
    extent: Extent,
) -> Result<Schedule, OutOfMemory>
    requires there { region < length table.now.regions }
    requires limits { AreLimits limits }
    requires extent { IsExtent extent }
    requires searched { IsSearched (table_of table.now) limits region (Some extent) }
    ensures { IfOk result (λ it. IsScheduleOf flow.now (table_of table.now) limits extent region (schedule_in it)) }
{
    match tell(alloc, table, region, limits, extent) {
        Ok(told) => completed(alloc, flow, limits, told),
        Err(SearchError::Memory) => Err(OutOfMemory::Memory),
        // A search has one answer, and this one found states before.
        Err(SearchError::NoPattern { .. }) => unreachable!(),
    }
}

/// The schedule of states that a search told of: with the scalars that their names hold, and their cycles.
fn completed(
    alloc: Global,
    flow: &Flow,
    limits: Limits,
    told: Told,
) -> Result<Schedule, OutOfMemory>
    requires limits { AreLimits limits }
    requires as_many { length told.rows ≡ length told.automaton }
    requires scheduled { AreScheduled limits (states_in told.automaton) }
    ensures { IfOk result (λ it. IsCompleted flow.now limits told it) }
{
    let variables = variables(alloc, flow, &told.automaton, told.rows.as_slice())?;
    let cycles = cycles(alloc, limits, &told)?;
    Ok(Schedule {
        told,
        variables,
        cycles,
    })
}
