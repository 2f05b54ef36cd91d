//! The search for the automaton of a region.
ghost use Rattle.std.specs.Prelude.{◌≡◌, ◌<◌, ◌≤◌, ◌^◌, ◌++◌, ◌∷◌, [], length, IfOk, IfErr, OnOk};
ghost use Rattle.std.specs.List.{AllByRecursion};
ghost use Rattle.pc_word.specs.MachineLimits.{most_rows};
ghost use Rattle.pc_word.specs.Ranges.{AreLimits, IsExtent};
ghost use Rattle.pc_table.specs.StoredTable.{table_of};
ghost use Rattle.pc_window.specs.Tree.{tree_size};
ghost use Rattle.pc_window.specs.Unwinding.{most_unwound};
ghost use Rattle.pc_window.specs.Steps.{IsProper};
ghost use Rattle.pc_window.specs.StoredWindow.{tree_in, window_in};
ghost use Rattle.pc_automaton.specs.Automaton.{state_in, states_in};
ghost use Rattle.pc_automaton.specs.Reachable.{EachIsReachable};
ghost use Rattle.pc_pattern.specs.Pattern.{rules_for, IsFound, IsNotFound};
ghost use Rattle.pc_pattern.specs.Recording.{IsRecorded};
ghost use Rattle.pc_pattern.specs.models.Pools.{pool_in, keys_in, IsSmall, IsSettled};
ghost use Rattle.pc_pattern.specs.models.Seen.{AreSeen};
ghost use Rattle.pc_pattern.specs.models.Leading.{rules_within, Made, Unmade, IsFirst};

use crate::error::SearchError;
use crate::leading::{Bounds, led};
use crate::pool::{Pool, begun};
use crate::recorder::{Recorder, Unrecorded};
use crate::renaming::Renaming;
use pc_automaton::{Automaton, AutomatonState, StateList, cut_front};
use pc_fill::fill_from;
use pc_table::RegionTable;
use pc_unify::tidy;
use pc_unwind::unwind;
use pc_window::{Window, WindowError, parameters_of};
use pc_word::{Extent, Limits};
use std::alloc::{AllocError, Global};

/// Searches for the automaton of a region, within these limits for each row. With window number 1 it is
/// packed code, of one turn of a loop at a time; with a greater one turns of a loop may overlap.
///
/// The region's window, unwound, is the first member. Each member is filled and its front is cut off
/// as the row of a state; what is left at each leaf is rebased, unwound and tidied. Where something is
/// left to do in it, the leaf leads to the member that is equal up to its names, its form variables
/// and a shift of all tags; where there is none, it is renumbered and becomes the next member. So the
/// members are closed once each has its row, or there are more of them than `extent.rows`.
///
/// It fails with the keys of all members where there are more of them than rows, and where memory runs out.
pub fn search(
    alloc: Global,
    table: &RegionTable,
    region: u32,
    limits: Limits,
    extent: Extent,
) -> Result<Automaton, SearchError>
    requires there { region < length table.now.regions }
    requires limits { AreLimits limits }
    requires extent { IsExtent extent }
    ensures found { IfOk result (λ automaton. IsFound (rules_for (table_of table.now) limits extent.window) region extent.rows (states_in automaton)) }
    ensures not_found { IfErr result (λ error. IsNotFound (rules_for (table_of table.now) limits extent.window) region extent.rows error) }
{
    search_with(alloc, table, region, limits, extent, &mut Unrecorded)
}

/// Searches as `search` does, and tells a recorder the window of each state, filled, in the order of the states: the front of each
/// is the state's row. It fails also where the recorder does.
pub fn search_with<R: Recorder>(
    alloc: Global,
    table: &RegionTable,
    region: u32,
    limits: Limits,
    extent: Extent,
    recorder: &mut R,
) -> Result<Automaton, SearchError>
    requires there { region < length table.now.regions }
    requires limits { AreLimits limits }
    requires extent { IsExtent extent }
    ensures found { IfOk result (λ automaton. IsFound (rules_for (table_of table.now) limits extent.window) region extent.rows (states_in automaton)) }
    ensures recorded { IfOk result (λ automaton. IsRecorded R.takes (rules_for (table_of table.now) limits extent.window) region extent.rows (states_in automaton) recorder.old recorder.new) }
    ensures not_found { IfErr result (λ error. IsNotFound (rules_for (table_of table.now) limits extent.window) region extent.rows error) }
{
    let states = closed(alloc, table, region, Bounds { limits, extent }, recorder)?;
    match Automaton::new(states) {
        Ok(automaton) => Ok(automaton),
        // The states of closed members are those of an automaton.
        Err(_) => unreachable!(),
    }
}

/// The states of the closed members, of each of which the recorder is told.
fn closed<R: Recorder>(
    alloc: Global,
    table: &RegionTable,
    region: u32,
    bounds: Bounds,
    recorder: &mut R,
) -> Result<StateList, SearchError>
    requires there { region < length table.now.regions }
    requires limits { AreLimits bounds.limits }
    requires extent { IsExtent bounds.extent }
    ensures recorded { IfOk result (λ states. IsRecorded R.takes (rules_within (table_of table.now) bounds) region bounds.extent.rows (states_in states) recorder.old recorder.new) }
    ensures led { IfOk result (λ states. EachIsReachable (states_in states)) }
    ensures not_found { IfErr result (λ error. IsNotFound (rules_within (table_of table.now) bounds) region bounds.extent.rows error) }
{
    let first = first(alloc, table, region, bounds)?;
    let mut pool = begun(alloc, first)?;
    let mut states = StateList::new(alloc);
    while let Some(window) = pool.next_waiting() {
        let state = state(alloc, table, window, &mut pool, bounds, recorder)?;
        put_state(state, &mut states)?;
    }
    Ok(states)
}

/// The region's window, unwound and tidied.
#[tactic(auto, using(crate::proofs::Steps::steps))]
fn first(
    alloc: Global,
    table: &RegionTable,
    region: u32,
    bounds: Bounds,
) -> Result<Window, WindowError>
    requires there { region < length table.now.regions }
    requires limits { AreLimits bounds.limits }
    ensures first { IfOk result (λ window. IsFirst (rules_within (table_of table.now) bounds) region (window_in window)) }
    ensures settled { IfOk result IsSettled }
    ensures proper { IfOk result (λ window. IsProper (window_in window)) }
    ensures size { IfOk result (λ window. tree_size (tree_in window.tree) ≤ most_unwound) }
    ensures names { IfOk result (λ window. length window.names.forms < 2 ^ 31) }
{
    let window = Window::of_region(alloc, table, region, bounds.limits)?;
    let window = unwind(alloc, window, table, bounds.extent.window)?;
    let window = tidy(alloc, window)?;
    Ok(window)
}

/// Puts a state behind the others.
fn put_state(state: AutomatonState, states: &mut StateList) -> Result<(), AllocError>
    ensures { OnOk result (states_in states.new ≡ states_in states.old ++ state_in state ∷ []) }
{
    states.push(state)?;
    Ok(())
}

/// The state of a member, of which the recorder is told. What comes of its leaves waits behind the others.
#[tactic(auto, using(crate::proofs::States::states))]
fn state<R: Recorder>(
    alloc: Global,
    table: &RegionTable,
    window: Window,
    pool: &mut Pool,
    bounds: Bounds,
    recorder: &mut R,
) -> Result<AutomatonState, SearchError>
    requires proper { IsProper (window_in window) }
    requires settled { IsSettled window }
    requires limits { AreLimits window.limits }
    requires small { IsSmall (table_of table.now) most_rows (window_in window) }
    requires room { length pool.old.keys.keys ≤ bounds.extent.rows }
    requires seen { AreSeen (rules_within (table_of table.now) bounds) (keys_in pool.old.keys.keys) pool.old.seen }
    ensures made { IfOk result (λ state. (made : Made (rules_within (table_of table.now) bounds) (window_in window) (pool_in pool.old) (state_in state) (pool_in pool.new)) × R.takes recorder.old made.filled recorder.new) }
    ensures settled { OnOk result (AllByRecursion IsSettled pool.old.waiting.items → AllByRecursion IsSettled pool.new.waiting.items) }
    ensures seen { OnOk result (AreSeen (rules_within (table_of table.now) bounds) (keys_in pool.new.keys.keys) pool.new.seen) }
    ensures room { OnOk result (length pool.new.keys.keys ≤ bounds.extent.rows) }
    ensures unmade { IfErr result (λ error. Unmade (rules_within (table_of table.now) bounds) bounds.extent.rows (window_in window) (pool_in pool.old) error) }
{
    let parameters = parameters_of(alloc, &window.tree, window.names.forms.len())?;
    let filled = fill_from(alloc, window, parameters.as_slice())?;
    recorder.take(alloc, &filled)?;
    let mut next = filled.names.forms.len() as u32;
    let row = cut_front(alloc, filled, table)?;
    let row = led(
        alloc,
        table,
        row,
        &Renaming::Themselves,
        &mut next,
        pool,
        bounds,
    )?;
    Ok(AutomatonState { parameters, row })
}
