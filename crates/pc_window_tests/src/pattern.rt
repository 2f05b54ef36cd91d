//! Searches for the automaton of a region.
ghost use Rattle.std.specs.Prelude.{◌<◌, ◌^◌, length};
ghost use Rattle.pc_word.specs.Ranges.{IsBetween};
ghost use Rattle.pc_word.specs.MachineLimits.{most_rows, most_window};

use crate::tables::{ECHOING, EXCHANGING, LIMITS, PRINTED};
use pc_automaton::{Automaton, AutomatonLeaf};
use pc_pattern::{SearchError, laws_of_patterns, laws_of_searches, search};
use pc_window_specimen::{ToldTable, Untold, table};
use pc_word::{Extent, MOST_ROWS, MOST_WINDOW, RowTree};
use std::alloc::Global;
use std::test::Fail;

/// Whether some leaf of a row leads to this state.
fn leads_to(row: &RowTree<AutomatonLeaf>, number: u32) -> bool {
    match row {
        RowTree::Step { next, .. } => leads_to(next, number),
        RowTree::Test { yes, no, .. } => leads_to(yes, number) || leads_to(no, number),
        RowTree::Leaf { leaf } =>
            matches!(leaf, AutomatonLeaf::To { state, .. } if *state == number),
    }
}

/// What a search finds.
#[derive(Clone, Copy, PartialEq, Eq)]
enum Found {
    /// So many states, of which the last leads back to the first.
    Closed(u32),
    /// So many states.
    Open(u32),
    /// More members than there may be, with so many keys.
    Reached(usize),
    NoMemory,
}

/// How many states an automaton has, and whether the last leads back.
fn last_leads(automaton: &Automaton) -> Found
    requires { length automaton.now < 2 ^ 32 }
{
    let count = automaton.count();
    if leads_to(&automaton.state(count - 1).row, 0) {
        Found::Closed(count)
    } else {
        Found::Open(count)
    }
}

/// What the search from region 0 of a table finds, with this window number and in so many rows.
#[tactic(auto, using(crate::proofs::States::searching))]
fn searched(alloc: Global, told: &ToldTable, window: u8, rows: u16) -> Result<Found, Untold>
    requires window { IsBetween 1 most_window window }
    requires rows { IsBetween 1 most_rows rows }
{
    let table = table(alloc, told)?;
    let found = search(alloc, &table, 0, LIMITS, Extent { window, rows });
    Ok(match found {
        Ok(automaton) => last_leads(&automaton),
        Err(SearchError::NoPattern { reached }) => Found::Reached(reached.len()),
        Err(SearchError::Memory) => Found::NoMemory,
    })
}

/// Tables, window numbers and numbers of rows, with what the search finds: straight code is one row; a
/// loop that is not unwound reads and then tests, and closes once it is; one that exchanges variables
/// leads to itself.
const SEARCHES: [(ToldTable, u8, u16, Found); 7] = [
    (PRINTED, 4, 1, Found::Open(1)),
    (ECHOING, 1, 512, Found::Open(2)),
    (ECHOING, 1, 1, Found::Reached(2)),
    (ECHOING, 2, 2, Found::Closed(2)),
    (ECHOING, 4, 2, Found::Closed(2)),
    (EXCHANGING, 1, 1, Found::Open(1)),
    (EXCHANGING, 2, 1, Found::Closed(1)),
];

/// Whether a search finds this, where its numbers may be given.
fn finds(
    alloc: Global,
    told: &ToldTable,
    window: u8,
    rows: u16,
    wanted: Found,
) -> Result<bool, Untold> {
    if window < 1 || window > MOST_WINDOW || rows < 1 || rows > MOST_ROWS {
        return Ok(false);
    }
    Ok(searched(alloc, told, window, rows)? == wanted)
}

#[test]
fn searches_find_automata(rt: HostRuntime) -> Result<(), Fail> {
    for (number, (told, window, rows, wanted)) in SEARCHES.iter().enumerate() {
        let is_so = finds(rt.alloc(), told, *window, *rows, *wanted)?;
        assert!(rt; is_so, "{number}");
    }
    laws_of_patterns();
    laws_of_searches();
    Ok(())
}
