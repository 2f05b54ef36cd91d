//! The rows that ran most often.
ghost use Rattle.std.specs.Prelude.{◌≡◌, ◌≤◌, length, nat_lt, IfOk, OnOk};
ghost use Rattle.std.specs.List.{position_or_len};
ghost use Rattle.pc_stat.specs.Busiest.{busier, busiest, most_told};

use std::alloc::{AllocError, Global};

/// How many rows are told.
const MOST_TOLD: usize = 10;

/// A row, by its number, and how often it ran.
#[derive(Clone, Copy, Debug, PartialEq, Eq)]
pub struct RowCount {
    pub number: usize,
    pub cycles: u64,
}

/// The ten rows that ran most often, by how often each row ran: those that ran more often first, and of
/// those that ran as often the first in the code. A row that never ran is none of them.
///
/// It takes time in proportion to the rows.
pub fn busiest(alloc: Global, counts: &[u64]) -> Result<Vec<RowCount>, AllocError>
    ensures { IfOk result (λ rows. rows.items ≡ busiest counts.now) }
{
    let mut rows = Vec::new(alloc);
    for (number, cycles) in counts.iter().enumerate() {
        let row = RowCount {
            number,
            cycles: *cycles,
        };
        rank(&mut rows, row)?;
    }
    Ok(rows)
}

/// Puts a row among the busiest so far, if it ran and is one of them.
fn rank(rows: &mut Vec<RowCount>, row: RowCount) -> Result<(), AllocError>
    requires { length rows.old.items ≤ most_told }
    ensures rows { OnOk result (rows.new.items ≡ busier row rows.old.items) }
    ensures few { OnOk result (length rows.new.items ≤ most_told) }
{
    if row.cycles == 0 {
        return Ok(());
    }
    let place = place_of(rows.as_slice(), row);
    rows.insert(place, row)?;
    rows.truncate(MOST_TOLD);
    Ok(())
}

/// The place of a row among the busiest so far: in front of the first that ran less often.
fn place_of(rows: &[RowCount], row: RowCount) -> usize
    ensures place { result ≡ position_or_len (λ other. nat_lt other.cycles row.cycles) rows.now }
    ensures within { result ≤ length rows.now }
{
    for (place, other) in rows.iter().enumerate() {
        if other.cycles < row.cycles {
            return place;
        }
    }
    rows.len()
}
