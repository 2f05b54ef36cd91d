//! A search of whose rows it is told.
ghost use Rattle.std.specs.Prelude.{◌<◌, length, IfOk, IfErr};
ghost use Rattle.pc_word.specs.Ranges.{AreLimits, IsExtent};
ghost use Rattle.pc_table.specs.StoredTable.{table_of};
ghost use Rattle.pc_automaton.specs.Automaton.{states_in};
ghost use Rattle.pc_pattern.specs.Pattern.{rules_for, IsFound, IsNotFound};
ghost use Rattle.pc_told.specs.Tellings.{tellings_in};
ghost use Rattle.pc_told.specs.ToldRows.{AreTold};

use crate::teller::Teller;
use crate::{ToldRowList, WaitingLists};
use pc_automaton::Automaton;
use pc_pattern::{SearchError, search_with};
use pc_table::RegionTable;
use pc_word::{Extent, Limits};
use std::alloc::Global;

/// An automaton, and what is told of the row of each of its states.
#[derive(Debug, Drop)]
pub struct Told {
    /// The automaton that the search found.
    pub automaton: Automaton,
    /// One row for each of its states, in their order.
    pub rows: ToldRowList,
    /// What waits behind the row of each, and why, with iterations counted as in the row.
    pub waiting: WaitingLists,
}

/// Searches for the automaton of a region as `pc_pattern::search` does, and tells of each state's row of which iteration and of
/// which node of the flow graph its items and tests are, how many iterations its leaves go on, and what waits there and why. A told row has the items and
/// tests of the state's row and its leaves, one by one, but the names that are written are those of the window.
///
/// It fails with the keys of all members where there are more of them than rows, and where memory runs out.
pub fn tell(
    alloc: Global,
    table: &RegionTable,
    region: u32,
    limits: Limits,
    extent: Extent,
) -> Result<Told, SearchError>
    requires there { region < length table.now.regions }
    requires limits { AreLimits limits }
    requires extent { IsExtent extent }
    ensures found { IfOk result (λ told. IsFound (rules_for (table_of table.now) limits extent.window) region extent.rows (states_in told.automaton)) }
    ensures told { IfOk result (λ told. AreTold (rules_for (table_of table.now) limits extent.window) region extent.rows (states_in told.automaton) (tellings_in told.rows) told.waiting) }
    ensures not_found { IfErr result (λ error. IsNotFound (rules_for (table_of table.now) limits extent.window) region extent.rows error) }
{
    let mut teller = Teller {
        table,
        rows: ToldRowList::new(alloc),
        waiting: WaitingLists::new(alloc),
    };
    let automaton = search_with(alloc, table, region, limits, extent, &mut teller)?;
    Ok(Told {
        automaton,
        rows: teller.rows,
        waiting: teller.waiting,
    })
}
