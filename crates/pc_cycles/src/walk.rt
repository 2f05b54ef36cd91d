//! A walk from state to state, depth first, that tells the cycles which it closes.
ghost use Rattle.std.specs.Prelude.{◌≡◌, true, false, Some, slice_get, IfOk, OnOk};
ghost use Rattle.std.specs.List.{AllByRecursion};
ghost use Rattle.pc_word.specs.Ranges.{AreLimits};
ghost use Rattle.pc_automaton.specs.Automaton.{states_in};
ghost use Rattle.pc_told.specs.Tellings.{tellings_in};
ghost use Rattle.pc_cycles.specs.Cycles.{AreScheduled, IsCycle, NoneIsPassedOver};
ghost use Rattle.pc_cycles.specs.models.Paths.{is_on};
ghost use Rattle.pc_cycles.specs.models.Walking.{IsGround, IsAt, IsFound, Visits, Follows};

use crate::cycle::Cycle;
use crate::path::{Path, is_on, push_since};
use crate::rows::{leaf_count, successor_at};
use crate::transition::Transition;
use crate::{CycleList, TransitionList};
use pc_told::Told;
use pc_word::{Limits, OutOfMemory};
use std::alloc::Global;

/// The cycles of a schedule that a walk closes which goes from state 0 through the leaves of each state in their order, and goes on
/// from each state once: where a leaf leads to a state from which the walk came, the transitions from there on are a cycle. There may
/// be other cycles, made of parts of these; but none avoids them: whoever goes round and round takes the last transition of one that
/// is told.
///
/// The walk takes time in proportion to what stands in all rows times their leaves. For each cycle there is added the square of what
/// stands on it, and, for the chain, as often as its first state has parameters and items wait behind its last row, what stands on it
/// and waits there times what may carry a chain on there. It fails where memory runs out.
pub fn cycles(alloc: Global, limits: Limits, told: &Told) -> Result<CycleList, OutOfMemory>
    requires limits { AreLimits limits }
    requires scheduled { AreScheduled limits (states_in told.now.automaton) }
    ensures are_cycles { IfOk result (λ cycles. AllByRecursion (IsCycle limits (states_in told.now.automaton) (tellings_in told.now.rows) told.now.waiting) cycles) }
    ensures none_is_passed_over { IfOk result (λ cycles. NoneIsPassedOver (states_in told.now.automaton) cycles) }
{
    let mut met = vec![in alloc; false; told.automaton.count() as usize]?;
    let mut cycles = CycleList::new(alloc);
    visit(alloc, limits, told, &Path::Start, 0, &mut met, &mut cycles)?;
    Ok(cycles)
}

/// Goes on from a state that was not met before.
#[cycle(visit)]
fn visit(
    alloc: Global,
    limits: Limits,
    told: &Told,
    path: &Path,
    state: u32,
    met: &mut [bool],
    cycles: &mut CycleList,
) -> Result<(), OutOfMemory>
    requires ground { IsGround limits (states_in told.now.automaton) }
    requires at { IsAt (states_in told.now.automaton) path.now state met.old }
    requires first_met { slice_get met.old state ≡ Some false }
    requires found { IsFound limits (states_in told.now.automaton) (tellings_in told.now.rows) told.now.waiting (is_on path.now) met.old cycles.old }
    ensures { OnOk result (Visits limits (states_in told.now.automaton) (tellings_in told.now.rows) told.now.waiting path.now state met.old met.new cycles.old cycles.new) }
{
    met[state as usize] = true;
    let row = &told.automaton.state(state).row;
    for leaf in 0..leaf_count(row) {
        if let Some(next) = successor_at(row, leaf) {
            let transition = Transition { state, leaf };
            let path = Path::After {
                transition,
                before: &*path,
            };
            follow(alloc, limits, told, &path, next, met, cycles)?;
        }
    }
    Ok(())
}

/// Goes on at the end of a path: to a state that was not met before, or round a cycle.
#[cycle(visit)]
fn follow(
    alloc: Global,
    limits: Limits,
    told: &Told,
    path: &Path,
    next: u32,
    met: &mut [bool],
    cycles: &mut CycleList,
) -> Result<(), OutOfMemory>
    requires ground { IsGround limits (states_in told.now.automaton) }
    requires at { IsAt (states_in told.now.automaton) path.now next met.old }
    requires found { IsFound limits (states_in told.now.automaton) (tellings_in told.now.rows) told.now.waiting (is_on path.now) met.old cycles.old }
    ensures { OnOk result (Follows limits (states_in told.now.automaton) (tellings_in told.now.rows) told.now.waiting path.now next met.old met.new cycles.old cycles.new) }
{
    if is_on(path, next) {
        return close(alloc, limits, told, path, next, met, cycles);
    }
    if met[next as usize] {
        return Ok(());
    }
    visit(alloc, limits, told, path, next, met, cycles)
}

/// Tells the cycle that a path closes which leads back to a state on it.
fn close(
    alloc: Global,
    limits: Limits,
    told: &Told,
    path: &Path,
    next: u32,
    met: &[bool],
    cycles: &mut CycleList,
) -> Result<(), OutOfMemory>
    requires ground { IsGround limits (states_in told.now.automaton) }
    requires at { IsAt (states_in told.now.automaton) path.now next met.now }
    requires found { IsFound limits (states_in told.now.automaton) (tellings_in told.now.rows) told.now.waiting (is_on path.now) met.now cycles.old }
    requires back { is_on path.now next ≡ true }
    ensures { OnOk result (Follows limits (states_in told.now.automaton) (tellings_in told.now.rows) told.now.waiting path.now next met.now met.now cycles.old cycles.new) }
{
    let mut transitions = TransitionList::new(alloc);
    push_since(path, next, &mut transitions)?;
    let cycle = Cycle::along(alloc, limits, told, transitions)?;
    cycles.push(cycle)?;
    Ok(())
}
