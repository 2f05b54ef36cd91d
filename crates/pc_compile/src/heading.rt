//! The regions whose forms may be pipelined.
ghost use Rattle.std.specs.Prelude.{◌≡◌};
ghost use Rattle.pc_table.specs.StoredTable.{table_of};
ghost use Rattle.pc_compile.specs.Choosing.{may_pipeline};

use pc_table::RegionTable;
use pc_word::Extent;

/// Whether a pipelined form is tried for a region: a window may hold more than one iteration of a loop, and
/// the region is the header of an innermost one.
pub(crate) fn may_pipeline(table: &RegionTable, extent: Extent, region: u32) -> bool
    ensures { result ≡ may_pipeline (table_of table.now) extent region }
{
    extent.window > 1 && table.innermost_loop(region).is_some()
}
