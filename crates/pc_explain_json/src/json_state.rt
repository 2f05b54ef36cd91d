//! The states of a schedule as JSON values.
ghost use Rattle.std.specs.Prelude.{◌≡◌, ◌++◌, ◌∷◌, [], map, Some, IfOk, OnOk};
ghost use Rattle.serde_json.specs.View.{view};
ghost use Rattle.pc_json.specs.Json.{list_of};
ghost use Rattle.pc_explain.specs.EachState.{explained_in};
ghost use Rattle.pc_explain.specs.Explained.{schedule_in, HasEach};
ghost use Rattle.pc_explain.specs.Legends.{legend_in};
ghost use Rattle.pc_explain.specs.Naming.{naming_in};
ghost use Rattle.pc_explain_json.specs.Json.{parameters_json, state_json, states_json, wait_json};

use crate::json_row::{operand_value, row_value};
use pc_explain::{KindWords, Legend, ObstacleWords, Schedule, StateNaming, StateView};
use pc_json::optional_value;
use pc_waiting::Waiting;
use pc_word::Operand;
use serde_json::{Value, json, push};
use std::alloc::{AllocError, Global};

/// The states of a schedule, in their order, with all that is explained of each.
pub(crate) fn states_value(
    alloc: Global,
    legend: &Legend,
    schedule: &Schedule,
) -> Result<Value, AllocError>
    requires { HasEach (schedule_in schedule.now) }
    ensures { IfOk result (λ value. view value ≡ states_json (legend_in legend.now) (Some (schedule_in schedule.now))) }
{
    let mut list = Vec::new(alloc);
    for number in 0..schedule.count() {
        let state = schedule.state(number);
        push_state(alloc, &mut list, legend, number, state)?;
    }
    Ok(Value::from(list))
}

/// Appends a state to a list of values.
fn push_state(
    alloc: Global,
    list: &mut Vec<Value>,
    legend: &Legend,
    number: u32,
    state: StateView,
) -> Result<(), AllocError>
    ensures { OnOk result (map view list.new.items ≡ map view list.old.items ++ state_json (legend_in legend.now) number (explained_in state.entry) ∷ []) }
{
    let state = state_value(alloc, legend, number, state)?;
    push(list, state)
}

/// A state, with all that is explained of it.
fn state_value(
    alloc: Global,
    legend: &Legend,
    number: u32,
    state: StateView,
) -> Result<Value, AllocError>
    ensures { IfOk result (λ value. view value ≡ state_json (legend_in legend.now) number (explained_in state.entry)) }
{
    let naming = state.naming(legend);
    let row = row_value(alloc, naming, &state.state.row, state.told)?;
    let parameters = parameters_value(alloc, naming, state.state.parameters.as_slice())?;
    let waits = waits_value(alloc, legend, state.waiting)?;
    json!(in alloc; {"state": number, "parameters": parameters, "row": row, "waits": waits})
}

/// The parameters of a state, in their order.
fn parameters_value(
    alloc: Global,
    naming: StateNaming,
    parameters: &[u32],
) -> Result<Value, AllocError>
    ensures { IfOk result (λ value. view value ≡ parameters_json (naming_in naming.entry) parameters.now) }
{
    let mut list = Vec::new(alloc);
    for name in parameters {
        let words = operand_value(alloc, naming, Operand::Name(*name))?;
        push(&mut list, words)?;
    }
    Ok(Value::from(list))
}

/// What waits, in its order.
fn waits_value(alloc: Global, legend: &Legend, waiting: &[Waiting]) -> Result<Value, AllocError>
    ensures { IfOk result (λ value. view value ≡ list_of (map (wait_json (legend_in legend.now)) waiting.now)) }
{
    let mut list = Vec::new(alloc);
    for it in waiting {
        let value = wait_value(alloc, legend, *it)?;
        push(&mut list, value)?;
    }
    Ok(Value::from(list))
}

/// An item or test that waits, and why.
fn wait_value(alloc: Global, legend: &Legend, waiting: Waiting) -> Result<Value, AllocError>
    ensures { IfOk result (λ value. view value ≡ wait_json (legend_in legend.now) waiting) }
{
    let Waiting {
        iteration,
        origin,
        what,
        obstacle,
    } = waiting;
    let what = KindWords { legend, what };
    let what = format!(in alloc; "{what}")?;
    let why = ObstacleWords { legend, obstacle };
    let why = format!(in alloc; "{why}")?;
    let line = optional_value(legend.line(origin));
    json!(in alloc; {"iteration": iteration, "origin": origin, "line": line, "what": what, "why": why})
}
