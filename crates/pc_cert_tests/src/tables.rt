//! A table of a loop of two regions, and its windows.
ghost use Rattle.std.specs.Prelude.{IfOk};
ghost use Rattle.pc_table.specs.StoredTable.{table_of};
ghost use Rattle.pc_arranging.specs.CanArrange.{ArrangedIn};

use pc_arranging::do_steps;
use pc_cert::Step;
use pc_table::RegionTable;
use pc_window::Window;
use pc_window_specimen::{PLAIN, Part, ToldRegion, ToldTable, Untold, opened};
use pc_word::Operand::{Lit, Name};
use pc_word::{Limits, OpCode};
use std::alloc::Global;

/// As much as may fit into a row.
pub(crate) const LIMITS: Limits = Limits {
    ops: 32,
    tests: 7,
    mem: 32,
};

/// The region of a turn of the loop.
pub(crate) const TURN: u32 = 1;

/// The region between two turns.
pub(crate) const STEP: u32 = 2;

/// The region behind the loop.
pub(crate) const AFTER: u32 = 3;

/// `x = 2;`, before the first turn.
const ENTRY_REGION: ToldRegion = ToldRegion {
    parts: &[Part::Copy(0, 0, Lit(2)), Part::Next(TURN)],
    live: &[1],
    ..PLAIN
};

/// One turn: `print(y);`, and then the step where x or y is not 0, and else what follows.
const TURN_REGION: ToldRegion = ToldRegion {
    head: 1,
    parts: &[
        Part::Print(1, Name(1)),
        Part::Asks(2, Name(0)),
        Part::Next(STEP),
        Part::Asks(3, Name(1)),
        Part::Next(STEP),
        Part::Next(AFTER),
    ],
    live: &[0, 1],
    inside: Some(0),
    heads: Some(0),
};

/// `x = x - 1;`, before the next turn.
const STEP_REGION: ToldRegion = ToldRegion {
    head: 4,
    parts: &[
        Part::Bin(4, OpCode::Sub, 0, Name(0), Lit(1)),
        Part::Next(TURN),
    ],
    live: &[0, 1],
    inside: Some(0),
    ..PLAIN
};

/// `z = 3 + 4; print(7);`, behind the loop.
const AFTER_REGION: ToldRegion = ToldRegion {
    head: 5,
    parts: &[
        Part::Bin(5, OpCode::Add, 2, Lit(3), Lit(4)),
        Part::Print(6, Lit(7)),
        Part::Stop,
    ],
    ..PLAIN
};

/// The four regions.
pub(crate) const TWO_REGIONS: ToldTable = ToldTable {
    regions: &[ENTRY_REGION, TURN_REGION, STEP_REGION, AFTER_REGION],
    headers: &[1],
    lengths: &[],
};

/// What steps make of a region's window.
pub(crate) fn arranged(
    alloc: Global,
    table: &RegionTable,
    region: u32,
    steps: &[Step],
) -> Result<Option<Window>, Untold>
    ensures { IfOk result (ArrangedIn (table_of table.now)) }
{
    let window = opened(alloc, table, region, LIMITS)?;
    Ok(do_steps(alloc, table, window, steps)?)
}
