//! What comes of trying the form of a search.
ghost use Rattle.std.specs.Prelude.{◌≡◌, ◌<◌, ◌≤◌, suc, length, IfOk};
ghost use Rattle.pc_word.specs.Ranges.{AreLimits, IsExtent};
ghost use Rattle.pc_word.specs.MachineLimits.{most_object};
ghost use Rattle.pc_table.specs.StoredTable.{table_of};
ghost use Rattle.pc_assign.specs.Pressure.{most_scratch};
ghost use Rattle.pc_compile.specs.declared.trying.Attempt.TheVariants.{Refused};
ghost use Rattle.pc_compile.specs.declared.choice.Cause.TheVariants.{Rows, Live, Bytes};
ghost use Rattle.pc_compile.specs.Choosing.{pipelines};
ghost use Rattle.pc_compile.specs.models.Giving.{bytes_of, IsAttempt};

use crate::bytes::states_bytes;
use crate::choice::Cause;
use crate::choose_error::ChooseError;
use pc_assign::{AssignError, Assigned, assign};
use pc_automaton::Automaton;
use pc_machine::MOST_REGISTERS;
use pc_pattern::{SearchError, search};
use pc_table::RegionTable;
use pc_word::{Extent, Limits, MOST_OBJECT};
use std::alloc::Global;

/// What comes of trying a form: an automaton with its registers, and the bytes of the object then, or
/// why it is refused.
#[derive(Drop)]
pub(crate) enum Attempt {
    Fits {
        automaton: Automaton,
        registers: Assigned,
        bytes: u32,
    },
    Refused {
        cause: Cause,
    },
}

/// Tries the form that a search of this extent finds for a region, where all but it has so many bytes.
#[tactic(auto, using(crate::proofs::Attempts::trying))]
pub(crate) fn try_form(
    alloc: Global,
    table: &RegionTable,
    region: u32,
    limits: Limits,
    extent: Extent,
    others: u32,
) -> Result<Attempt, ChooseError>
    requires limits { AreLimits limits }
    requires extent { IsExtent extent }
    requires there { region < length table.now.regions }
    requires short { others ≤ most_object }
    ensures { IfOk result (IsAttempt (pipelines (table_of table.now) limits extent) region extent.rows (bytes_of (table_of table.now) region others)) }
{
    let automaton = match search(alloc, table, region, limits, extent) {
        Ok(automaton) => automaton,
        Err(SearchError::NoPattern { .. }) => return Ok(many_rows(extent.rows)),
        Err(SearchError::Memory) => return Err(ChooseError::Memory),
    };
    let registers = match assign(alloc, &automaton) {
        Ok(registers) => registers,
        Err(AssignError::Pressure { live, .. }) => return high_pressure(live),
        Err(AssignError::Memory) => return Err(ChooseError::Memory),
    };
    let bytes = others + states_bytes(&automaton);
    if bytes > MOST_OBJECT as u32 {
        return Ok(many_bytes(bytes));
    }
    Ok(Attempt::Fits {
        automaton,
        registers,
        bytes,
    })
}

/// A form is refused, since its search came to a window more than these rows.
fn many_rows(rows: u16) -> Attempt
    ensures { result ≡ Refused (Rows (suc rows) rows) }
{
    let limit = u32::from(rows);
    let number = limit + 1;
    Attempt::Refused {
        cause: Cause::Rows { number, limit },
    }
}

/// A form is refused, since so many names are live together. A number that has no place in a cause,
/// which is 2^32 or more, is want of memory.
fn high_pressure(live: u64) -> Result<Attempt, ChooseError>
    ensures { IfOk result (λ attempt. attempt ≡ Refused (Live live most_scratch)) }
{
    let Ok(number) = u32::try_from(live) else {
        return Err(ChooseError::Memory);
    };
    let limit = MOST_REGISTERS as u32 - 1;
    Ok(Attempt::Refused {
        cause: Cause::Live { number, limit },
    })
}

/// A form is refused, since the object would have so many bytes.
fn many_bytes(number: u32) -> Attempt
    ensures { result ≡ Refused (Bytes number most_object) }
{
    let limit = MOST_OBJECT as u32;
    Attempt::Refused {
        cause: Cause::Bytes { number, limit },
    }
}
