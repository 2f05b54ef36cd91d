//! The window of an entry, arranged, whose front the entry's row does.
ghost use Rattle.std.specs.Prelude.{◌≡◌, length, IfOk};
ghost use Rattle.pc_word.specs.Row.{leaves_of};
ghost use Rattle.pc_table.specs.StoredTable.{table_of};
ghost use Rattle.pc_machine.specs.MachineCode.{row_of};
ghost use Rattle.pc_window.specs.Steps.{front_row};
ghost use Rattle.pc_window.specs.StoredWindow.{front_in};
ghost use Rattle.pc_arranging.specs.CanArrange.{IsArrangedIn};
ghost use Rattle.pc_settling.specs.Stored.{IsBegun};
ghost use Rattle.pc_checking.specs.models.Going.{ArrangesFor};
ghost use Rattle.pc_checking.specs.models.Stored.{arrival_in};

use crate::arrival::FirstArrival;
use pc_accepted::Flaw;
use pc_arranging::do_steps;
use pc_cert::Step;
use pc_machine::Tree;
use pc_matching::{HeldList, match_row};
use pc_table::RegionTable;
use pc_window::Window;
use pc_word::OutOfMemory;
use std::alloc::Global;

/// A window that steps have arranged, and the facts at each leaf of the row that does what its front does.
#[derive(Drop)]
pub(crate) struct Arranged {
    pub(crate) window: Window,
    pub(crate) helds: HeldList,
}

/// Arranges what an entry stands for by the entry's steps, if these are legal and the row does what the front then does.
#[tactic(auto, using(crate::proofs::Arranging::arranging))]
pub(crate) fn arrange(
    alloc: Global,
    table: &RegionTable,
    steps: &[Step],
    arrived: &FirstArrival,
    row: &Tree,
) -> Result<Result<Arranged, Flaw>, OutOfMemory>
    requires { IsBegun (table_of table.now) arrived.now.window }
    ensures arranges { IfOk result (λ outcome. ArrangesFor (table_of table.now) steps.now (arrival_in arrived.now) (row_of row.now) outcome) }
    ensures arranged { IfOk result (λ outcome. IfOk outcome (λ it. IsArrangedIn (table_of table.now) it.window)) }
    ensures leaves { IfOk result (λ outcome. IfOk outcome (λ it. length it.helds ≡ length (leaves_of (row_of row.now)))) }
    ensures rests { IfOk result (λ outcome. IfOk outcome (λ it. length it.helds ≡ length (leaves_of (front_row (λ tree. tree) (front_in it.window.tree))))) }
{
    let window = arrived.window.copy(alloc)?;
    let Some(window) = do_steps(alloc, table, window, steps)? else {
        return Ok(Err(Flaw::IllegalStep));
    };
    let front = window.tree.front_row(alloc)?;
    let Some(helds) = match_row(alloc, arrived.facts.as_slice(), row, &front)? else {
        return Ok(Err(Flaw::OtherRow));
    };
    Ok(Ok(Arranged { window, helds }))
}
