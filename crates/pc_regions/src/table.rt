//! The table of a graph.
ghost use Rattle.std.specs.Prelude.{◌≡◌, ℕ, ℤ, List, IfOk};
ghost use Rattle.pc_word.specs.Run.{AgreeOnInputs};
ghost use Rattle.pc_flow.specs.FlowRun.{flow_run};
ghost use Rattle.pc_live.specs.Liveness.{IsLivenessOf};
ghost use Rattle.pc_table.specs.StoredTable.{table_of};
ghost use Rattle.pc_table.specs.RegionRun.{table_run};
ghost use Rattle.pc_table.specs.TableKeeps.{TableKeeps};
ghost use Rattle.pc_regions.specs.Cut.{IsCutOf};

use crate::cutting::cut;
use crate::error::RegionError;
use crate::heads::find_heads;
use pc_flow::Flow;
use pc_live::Liveness;
use pc_table::RegionTable;
use pc_word::{LengthList, LoopList};
use std::alloc::Global;

/// A graph, cut into regions; `live` is the liveness of this graph.
///
/// Regions begin at heads: the entry, each node to which two edges or more lead from reachable nodes,
/// the header of each loop, and each node that finds no room in the region that leads to it. A region
/// takes the nodes below its head in preorder, the yes side first, up to 128 nodes. Region 0 has the
/// entry as its head, and regions have their numbers in the order in which they are first named. The
/// words with which arrays begin stay with the graph, and the table runs on them.
///
/// It takes time in proportion to the graph, and to the loops that stand round its heads and that its
/// edges enter and leave.
pub fn regions(alloc: Global, flow: &Flow, live: &Liveness) -> Result<RegionTable, RegionError>
    requires { IsLivenessOf flow.now live.now }
    ensures cut { IfOk result (λ table. IsCutOf flow.now (table_of table)) }
    ensures kept { IfOk result (λ table. TableKeeps (table_of table)) }
    ensures same { IfOk result (λ table. (input : List ℤ) (n : ℕ) → table_run (table_of table) flow.now.initial input n ≡ flow_run flow.now input n) }
    ensures agree { IfOk result (λ table. AgreeOnInputs (table_run (table_of table) flow.now.initial) (flow_run flow.now)) }
{
    let heads = find_heads(alloc, flow)?;
    let regions = cut(alloc, flow, live, &heads)?;
    let loops = LoopList::from_slice(alloc, flow.loops().as_slice())?;
    let arrays = LengthList::from_slice(alloc, flow.arrays().as_slice())?;
    Ok(RegionTable {
        regions,
        loops,
        arrays,
    })
}
