//! Registers for the names of an automaton.
ghost use Rattle.std.specs.Prelude.{◌≡◌, ◌<◌, ◌≤◌, ◌^◌, ◌↔◌, ℕ, true};
ghost use Rattle.std.specs.Prelude.{false, nat_eq, nat_lt, [], length, unwrap_or, IfOk, MatchResult};
ghost use Rattle.std.specs.List.{AllByRecursion, IsDistinct, list_all};
ghost use Rattle.pc_automaton.specs.Automaton.{state_in, states_in};
ghost use Rattle.pc_assign.specs.Pressure.{most_scratch, LowBefore};
ghost use Rattle.pc_assign.specs.Assigned.{state_names, AreByRule, IsAssigned, BeginsWithVariables};
ghost use Rattle.pc_assign.specs.Stored.{registers_in, Refuses};
ghost use Rattle.pc_assign.specs.models.Choosing.{AreMost, PassedMost, AreHeld, AreChosen};
ghost use Rattle.pc_assign.specs.models.Passing.{noted};
ghost use Rattle.pc_assign.specs.models.Assigning.{IsGiven, RefusesState, RefusesStates, registers_of};
ghost use Rattle.pc_word.specs.StoredRow.{row_in};

use crate::assigned::{Assigned, RegisterList, StateRegisters};
use crate::definitions::{Held, define};
use crate::error::AssignError;
use crate::naming::names_of;
use crate::parameters::{parameter_registers, set_of};
use crate::passing::{PassedList, note};
use crate::pressure::high_pressure;
use crate::register_set::{FEW_SCRATCH, MOST_SCRATCH, RegisterSet};
use pc_automaton::{Automaton, AutomatonLeaf, AutomatonState};
use pc_word::{RowTree, Seq};
use std::alloc::{AllocError, Global};

/// A register for each name of each state. The parameters of the first state are variables.
///
/// All registers are below one that is left for moves. That is the last of the few registers where no
/// state has more names that are live together, and else the last of the most; where even these are too
/// few for a state, the automaton is refused.
pub fn assign(alloc: Global, automaton: &Automaton) -> Result<Assigned, AssignError>
    requires count { length automaton.now < 2 ^ 32 }
    requires variables { BeginsWithVariables (states_in automaton.now) }
    ensures { MatchResult result
        (λ assigned. LowBefore most_scratch (states_in automaton.now) (length automaton.now) × IsAssigned (states_in automaton.now) (registers_in assigned))
        (λ why. Refuses (states_in automaton.now) why) }
{
    match assign_below(alloc, FEW_SCRATCH, automaton) {
        Ok(assigned) => Ok(assigned),
        Err(AssignError::Pressure { .. }) => assign_below(alloc, MOST_SCRATCH, automaton),
        Err(AssignError::Memory) => Err(AssignError::Memory),
    }
}

/// A register below scratch for each name of each state.
fn assign_below(alloc: Global, scratch: u8, automaton: &Automaton) -> Result<Assigned, AssignError>
    requires count { length automaton.now < 2 ^ 32 }
    requires variables { BeginsWithVariables (states_in automaton.now) }
    requires enough { 96 ≤ scratch }
    ensures given { MatchResult result
        (λ assigned. LowBefore scratch (states_in automaton.now) (length automaton.now) × AreByRule scratch (states_in automaton.now) (registers_of assigned.states))
        (λ why. RefusesStates scratch (states_in automaton.now) why) }
    ensures scratch { IfOk result (λ assigned. assigned.scratch ≡ scratch) }
{
    let count = automaton.count();
    let mut table = nothing_passed(alloc, count)?;
    let mut states = Seq::new(alloc);
    for number in 0..count {
        let state = automaton.state(number);
        let passed = passed_to(table.as_slice(), number);
        let given = assign_state(alloc, scratch, number, state, passed)?;
        note(alloc, &given, &state.row, table.as_mut_slice())?;
        states.push(given)?;
    }
    Ok(Assigned { states, scratch })
}

/// Whether the parameters of the first state are variables, as `assign` requires.
pub fn begins_with_variables(automaton: &Automaton) -> bool
    ensures { (result ≡ true) ↔ BeginsWithVariables (states_in automaton.now) }
{
    are_variables(automaton.first().parameters.as_slice())
}

/// Whether each of some names is a variable.
fn are_variables(names: &[u32]) -> bool
    ensures { result ≡ list_all (λ name. nat_lt name 96) names.now }
{
    names.iter().all(|name| *name < 96)
}

/// A table for so many states, in which nothing is noted.
#[tactic(auto, using(crate::proofs::AllGiven::tables))]
fn nothing_passed(alloc: Global, count: u32) -> Result<Vec<Option<PassedList>>, AllocError>
    ensures count { IfOk result (λ table. length table.items ≡ count) }
    ensures none { IfOk result (λ table. (to : ℕ) → noted table.items to ≡ None) }
{
    let mut table = Vec::new(alloc);
    for _ in 0..count {
        table.push(None)?;
    }
    Ok(table)
}

/// What is noted for a state.
fn passed_to(table: &[Option<PassedList>], number: u32) -> &[Option<u32>]
    ensures { result.now ≡ unwrap_or (noted table.now number) [] }
{
    match table.get(number as usize) {
        Some(Some(passed)) => passed.as_slice(),
        _ => &[],
    }
}

/// A register for each name of a state.
fn assign_state(
    alloc: Global,
    scratch: u8,
    number: u32,
    state: &AutomatonState,
    passed: &[Option<u32>],
) -> Result<StateRegisters, AssignError>
    requires enough { 96 ≤ scratch }
    requires once { IsDistinct nat_eq (state_names (state_in state.now)) }
    requires variables { number ≡ 0 → AllByRecursion (λ variable. variable < 96) state.now.parameters }
    requires passed { PassedMost scratch passed.now }
    ensures { MatchResult result (IsGiven scratch number passed.now (state_in state.now)) (RefusesState scratch number (state_in state.now)) }
{
    let names = names_of(alloc, state)?;
    if let Some(live) = high_pressure(scratch, state, names.len()) {
        return Err(AssignError::Pressure {
            state: number,
            live,
        });
    }
    let parameters = state.parameters.as_slice();
    let held = held_by(alloc, scratch, number, parameters, passed)?;
    let registers = with_defined(alloc, scratch, parameters, held.as_slice(), &state.row)?;
    Ok(StateRegisters { names, registers })
}

/// The registers of a state's parameters, in their order.
fn held_by(
    alloc: Global,
    scratch: u8,
    number: u32,
    parameters: &[u32],
    passed: &[Option<u32>],
) -> Result<RegisterList, AllocError>
    requires enough { 96 ≤ scratch }
    requires variables { number ≡ 0 → AllByRecursion (λ variable. variable < 96) parameters.now }
    requires passed { PassedMost scratch passed.now }
    ensures count { IfOk result (λ held. length held ≡ length parameters.now) }
    ensures most { IfOk result (AreMost scratch) }
    ensures chosen { IfOk result (AreHeld scratch number passed.now parameters.now) }
{
    if number == 0 {
        return RegisterList::from_slice(alloc, parameters);
    }
    parameter_registers(alloc, scratch, parameters, passed)
}

/// These registers of parameters, and after them those of the names that a row defines.
fn with_defined(
    alloc: Global,
    scratch: u8,
    parameters: &[u32],
    held: &[u32],
    row: &RowTree<AutomatonLeaf>,
) -> Result<RegisterList, AllocError>
    requires few { length parameters.now ≤ most_scratch }
    requires as_many { length held.now ≡ length parameters.now }
    requires most { AreMost scratch held.now }
    ensures { IfOk result (AreChosen scratch parameters.now held.now (λ register. false) (row_in (λ leaf. leaf) row.now) held.now) }
{
    let mut registers = RegisterList::from_slice(alloc, held)?;
    let given = Held {
        parameters,
        registers: held,
        taken: set_of(held),
        scratch,
    };
    define(&given, RegisterSet::empty(), row, &mut registers)?;
    Ok(registers)
}
