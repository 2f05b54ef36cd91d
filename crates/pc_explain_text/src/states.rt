//! The states of a schedule as lines: the row of each, and what waits.
ghost use Rattle.std.specs.Prelude.{◌≡◌, ◌++◌, map, OnOk, string_bytes};
ghost use Rattle.pc_word.specs.Line.{line};
ghost use Rattle.pc_automaton.specs.Automaton.{state_in};
ghost use Rattle.pc_automaton.specs.RowFits.{RowFits};
ghost use Rattle.pc_view.specs.Listing.{lines_text};
ghost use Rattle.pc_explain.specs.Legends.{legend_in};
ghost use Rattle.pc_explain.specs.Explained.{schedule_in, ScheduleCanBeWritten};
ghost use Rattle.pc_explain.specs.EachState.{each_state, explained_in, explained_states};
ghost use Rattle.pc_explain_text.specs.StateLines.{state_lines, waiting_front, waiting_words};

use crate::drawing::{Setting, push_tree};
use pc_explain::{KindWords, Legend, ObstacleWords, Schedule, StateView, place, push_heading};
use pc_waiting::Waiting;
use pc_word::Limits;
use std::alloc::{AllocError, Global};

/// Appends the lines of the states of a schedule to a text.
pub(crate) fn push_states(
    alloc: Global,
    text: &mut String,
    limits: Limits,
    legend: &Legend,
    header: u32,
    schedule: &Schedule,
) -> Result<(), AllocError>
    requires { ScheduleCanBeWritten limits (schedule_in schedule.now) }
    ensures { OnOk result (string_bytes text.new ≡ string_bytes text.old
        ++ lines_text (each_state (state_lines limits (legend_in legend.now) header) 0 (explained_states (schedule_in schedule.now)))) }
{
    for number in 0..schedule.count() {
        let state = schedule.state(number);
        push_state(alloc, text, limits, legend, header, number, state)?;
    }
    Ok(())
}

/// Appends the lines of a state to a text.
fn push_state(
    alloc: Global,
    text: &mut String,
    limits: Limits,
    legend: &Legend,
    header: u32,
    number: u32,
    it: StateView,
) -> Result<(), AllocError>
    requires { RowFits limits (state_in it.state.now).row }
    ensures { OnOk result (string_bytes text.new ≡ string_bytes text.old
        ++ lines_text (state_lines limits (legend_in legend.now) header number (explained_in it.entry))) }
{
    let naming = it.naming(legend);
    push_heading(text, limits, naming, number, it.state)?;
    text.push_str("\n")?;
    let setting = Setting { header, naming };
    let row = &it.state.row;
    push_tree(alloc, text, setting, "        ", "        ", row, it.told)?;
    push_waits(text, legend, it.waiting)
}

/// Appends the lines of what waits to a text.
fn push_waits(text: &mut String, legend: &Legend, waits: &[Waiting]) -> Result<(), AllocError>
    ensures { OnOk result (string_bytes text.new ≡ string_bytes text.old ++ lines_text (map (waiting_words (legend_in legend.now)) waits.now)) }
{
    for it in waits {
        push_waiting(text, legend, *it)?;
    }
    Ok(())
}

/// Appends the line of what waits, and why, to a text.
fn push_waiting(text: &mut String, legend: &Legend, it: Waiting) -> Result<(), AllocError>
    ensures { OnOk result (string_bytes text.new ≡ string_bytes text.old ++ line (waiting_words (legend_in legend.now) it)) }
{
    let place = place(legend, it.iteration, it.origin);
    let kind = KindWords {
        legend,
        what: it.what,
    };
    let obstacle = ObstacleWords {
        legend,
        obstacle: it.obstacle,
    };
    push_waiting_front(text)?;
    writeln!(text, "{place}, {kind}: {obstacle}")
}

/// Appends what stands in front of what waits to a text.
#[tactic(auto, unfolding(crate::specs::StateLines::waiting_front))]
fn push_waiting_front(text: &mut String) -> Result<(), AllocError>
    ensures { OnOk result (string_bytes text.new ≡ string_bytes text.old ++ waiting_front) }
{
    text.push_str("        waits: ")
}
