//! The recorder that keeps what each window tells.
ghost use Rattle.std.specs.Prelude.{◌≡◌, ◌++◌, ◌∷◌, []};
ghost use Rattle.pc_table.specs.StoredTable.{table_of};
ghost use Rattle.pc_told.specs.Tellings.{telling_of, tellings_in, HasToldWaits};

use crate::told_row::ToldRow;
use crate::{ToldRowList, WaitingLists};
use pc_pattern::Recorder;
use pc_table::RegionTable;
use pc_waiting::what_waits;
use pc_window::{Window, WindowError};
use std::alloc::Global;

/// A recorder that keeps, of each window that it takes, what is told of its front, and what waits behind that.
#[derive(Drop)]
pub struct Teller<'a> {
    /// The regions of which the windows are made.
    pub table: &'a RegionTable,
    /// What was told, in the order of the windows.
    pub rows: ToldRowList,
    /// What waits, in the same order.
    pub waiting: WaitingLists,
}

impl<'a> Recorder for Teller<'a> {
    ghost takes = { λ before filled after. (table_of after.table.now ≡ table_of before.table.now) × (tellings_in after.rows ≡ tellings_in before.rows ++ telling_of (table_of before.table.now) filled ∷ [])
        × HasToldWaits before.waiting after.waiting filled };

    fn take(&mut self, alloc: Global, filled: &Window) -> Result<(), WindowError> {
        let row = ToldRow::of_window(alloc, self.table, filled)?;
        let waiting = what_waits(alloc, filled, filled.front_tag())?;
        self.rows.push(row)?;
        self.waiting.push(waiting)?;
        Ok(())
    }
}
