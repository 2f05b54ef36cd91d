//! Explanations as JSON.
ghost use Rattle.std.specs.Prelude.{◌≡◌, ◌≤◌, map, Some, IfOk, IfSome, option_map};
ghost use Rattle.std.specs.List.{AllByRecursion};
ghost use Rattle.pc_object.specs.ObjectText.{IsChoice};
ghost use Rattle.pc_compile.specs.Notes.{note_list};
ghost use Rattle.serde_json.specs.Data.{depth};
ghost use Rattle.serde_json.specs.Read.{max_depth, read};
ghost use Rattle.serde_json.specs.View.{view};
ghost use Rattle.serde_json.specs.Written.{compact_text};
ghost use Rattle.pc_json.specs.Json.{list_of};
ghost use Rattle.pc_explain.specs.Explained.{schedule_in, explanation_in, explanations_in, HasEach, CanBeShown, CanBeWritten};
ghost use Rattle.pc_explain.specs.Legends.{legend_in};
ghost use Rattle.pc_explain_json.specs.Json.{form_name, noted_form, noted_line, noted_words, states_json, cycles_json};
ghost use Rattle.pc_explain_json.specs.Json.{loop_json, explanations_json, explanation_json};

use crate::json_cycle::cycles_value;
use crate::json_state::states_value;
use pc_explain::{Legend, LoopExplanation, Schedule};
use pc_json::{limits_value, line_text, optional_value};
use pc_object::Note;
use pc_report::push_note_words;
use pc_word::Limits;
use serde_json::{Value, json, push};
use std::alloc::{AllocError, Global};

/// Explanations of loops for other programs: one JSON object on a line, with the line that was asked for, the limits of rows, and for
/// each loop its region, form and note, the states of its schedule and their cycles.
///
/// A state has its row, a tree of objects, and what waits there, with the first reason why. A cycle has what stands on it and how many
/// rows once around takes at least: to have room for that, and where a chain of items goes round it, to do them one after the other.
/// A name of a state that holds a scalar of the source is written as `sum.7`, any other as `n7`. Each member of the objects is
/// described in specs/Json.antt.
///
/// The text without its line feed reads as this value, if it nests at most 127 deep: each item and test of a row nests one deeper than
/// the one above it.
pub fn explanation_json(
    alloc: Global,
    limits: Limits,
    legend: &Legend,
    line: Option<u32>,
    loops: &[LoopExplanation],
) -> Result<Vec<u8>, AllocError>
    requires can { AllByRecursion (CanBeWritten limits) (explanations_in loops.now) }
    ensures text { IfOk result (λ text. text.items ≡ explanation_json limits (legend_in legend.now) line (explanations_in loops.now)) }
    ensures reads { let value = explanations_json limits (legend_in legend.now) line (explanations_in loops.now) in
        IfOk result (λ text. depth value ≤ max_depth → read (compact_text value) ≡ Some value) }
{
    let value = explanations_value(alloc, limits, legend, line, loops)?;
    line_text(alloc, &value)
}

/// Explanations of loops, as a value.
fn explanations_value(
    alloc: Global,
    limits: Limits,
    legend: &Legend,
    asked: Option<u32>,
    loops: &[LoopExplanation],
) -> Result<Value, AllocError>
    requires { AllByRecursion (CanBeWritten limits) (explanations_in loops.now) }
    ensures { IfOk result (λ value. view value ≡ explanations_json limits (legend_in legend.now) asked (explanations_in loops.now)) }
{
    let limits = limits_value(alloc, limits)?;
    let loops = loops_value(alloc, legend, loops)?;
    let asked = optional_value(asked);
    json!(in alloc; {"asked": asked, "limits": limits, "loops": loops})
}

/// Loops, in their order.
fn loops_value(
    alloc: Global,
    legend: &Legend,
    loops: &[LoopExplanation],
) -> Result<Value, AllocError>
    requires { AllByRecursion (λ it. CanBeShown (explanation_in it)) loops.now }
    ensures { IfOk result (λ value. view value ≡ list_of (map (loop_json (legend_in legend.now)) (explanations_in loops.now))) }
{
    let mut list = Vec::new(alloc);
    for explanation in loops {
        let value = loop_value(alloc, legend, explanation)?;
        push(&mut list, value)?;
    }
    Ok(Value::from(list))
}

/// A loop.
fn loop_value(alloc: Global, legend: &Legend, it: &LoopExplanation) -> Result<Value, AllocError>
    requires { CanBeShown (explanation_in it.now) }
    ensures { IfOk result (λ value. view value ≡ loop_json (legend_in legend.now) (explanation_in it.now)) }
{
    let states = schedule_states_value(alloc, legend, &it.schedule)?;
    let cycles = schedule_cycles_value(alloc, legend, &it.schedule)?;
    let note = note_value(alloc, it.note)?;
    let line = note_line(it.note);
    json!(in alloc; {"region": it.region, "form": note_form(it.note), "line": line, "note": note, "states": states, "cycles": cycles})
}

/// The form of a loop by its note: plain where it has none.
fn note_form(note: Option<Note>) -> &'static str
    requires { AllByRecursion IsChoice (note_list note) }
    ensures { result.now ≡ noted_form (note_list note) }
{
    match note {
        Some(note) => form_name(note.choice),
        None => "plain",
    }
}

/// The form of a loop by the choice of its note.
fn form_name(choice: u8) -> &'static str
    requires { choice ≤ 7 }
    ensures { result.now ≡ form_name choice }
{
    match choice {
        0 => "pipelined",
        1..=4 => "packed",
        _ => "plain",
    }
}

/// The line of a loop by its note, or null where it has none.
fn note_line(note: Option<Note>) -> Value
    ensures { view result ≡ noted_line (note_list note) }
{
    match note {
        Some(note) => Value::from(note.line),
        None => Value::Null,
    }
}

/// The note of a loop in words, or null where it has none.
fn note_value(alloc: Global, note: Option<Note>) -> Result<Value, AllocError>
    requires { AllByRecursion IsChoice (note_list note) }
    ensures { IfOk result (λ value. view value ≡ noted_words (note_list note)) }
{
    match note {
        Some(note) => {
            let mut words = String::new(alloc);
            push_note_words(&mut words, note)?;
            Ok(Value::from(words))
        }
        None => Ok(Value::Null),
    }
}

/// The states of a schedule, or none where there is none.
fn schedule_states_value(
    alloc: Global,
    legend: &Legend,
    schedule: &Option<Schedule>,
) -> Result<Value, AllocError>
    requires { IfSome (option_map schedule_in schedule.now) HasEach }
    ensures { IfOk result (λ value. view value ≡ states_json (legend_in legend.now) (option_map schedule_in schedule.now)) }
{
    match schedule {
        Some(schedule) => states_value(alloc, legend, schedule),
        None => json!(in alloc; []),
    }
}

/// The cycles of a schedule, or none where there is none.
fn schedule_cycles_value(
    alloc: Global,
    legend: &Legend,
    schedule: &Option<Schedule>,
) -> Result<Value, AllocError>
    requires { IfSome (option_map schedule_in schedule.now) HasEach }
    ensures { IfOk result (λ value. view value ≡ cycles_json (legend_in legend.now) (option_map schedule_in schedule.now)) }
{
    match schedule {
        Some(schedule) => cycles_value(alloc, legend, schedule, schedule.cycles.as_slice()),
        None => json!(in alloc; []),
    }
}
