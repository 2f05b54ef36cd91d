//! Explanations as a text to be read.
ghost use Rattle.std.specs.Prelude.{◌≡◌, ◌++◌, map, IfOk, IfSome, OnOk, option_map, string_bytes};
ghost use Rattle.std.specs.List.{AllByRecursion, flat_map};
ghost use Rattle.pc_object.specs.ObjectText.{IsChoice};
ghost use Rattle.pc_report.specs.Report.{note_words};
ghost use Rattle.pc_view.specs.Listing.{lines_text};
ghost use Rattle.pc_compile.specs.Notes.{note_list};
ghost use Rattle.pc_explain.specs.Legends.{legend_in};
ghost use Rattle.pc_explain.specs.Explained.{schedule_in, explanation_in, explanations_in, ScheduleCanBeWritten, CanBeWritten};
ghost use Rattle.pc_explain_text.specs.Text.{schedule_lines, explanation_lines, no_loop_lines, explanation_text};

use crate::cycles::push_cycles;
use crate::states::push_states;
use pc_explain::{Legend, LoopExplanation, Schedule, push_no_loop_words};
use pc_object::Note;
use pc_report::push_note_words;
use pc_word::Limits;
use std::alloc::{AllocError, Global};

/// Explanations of loops as a text to be read: for each loop a line of its note, the lines of its cycles of states, and the lines of
/// its states. Where there are no explanations, one line says so, of the line that was asked for, if one was.
///
/// A cycle leads from a state back to it. Its first line has the states in their order, how many rows once around takes, which is one
/// for each, and how many iterations of the loop go by. The next has what stands on the way and how many of the tests there are taken,
/// the least number of rows that has room for so much, and of what there is too much for fewer. Where a chain of items was found round
/// it, each of which has to stand in a later row than the one before, a line has the lines of the source that these items come from, in
/// their order, with `?` where one is not known, and the least number of rows for them, since each takes a row of its own. The last
/// line has the greater of these two numbers beside the rows that once around takes: it says `reached` where they are as many, and else
/// what percentage of the rows the number is, cut off.
///
/// A state has a line with what its row has of what it may have and what it takes, the row, drawn as the tree that it is, and a line for
/// each item or test that waits: one that stands in the window, but not in this row. `waits: +1 line 5, load of x: needs +0 line 5` is a
/// load of iteration 1 from line 5, which waits since it reads what an item of iteration 0 writes, from line 5 too. What waits is told
/// without names, since they are not those of the state.
///
/// `sum.7` is name 7 of the state, which holds the scalar `sum` of the source, and `n98` is a name of which no scalar is known: of a
/// value that the state takes, or that its row writes. Arrays have their names in the source; `a1` is array 1 of the flow graph where
/// it has none, and `v0` so its variable 0. In front of each item and test stands its iteration, where `+0` is the first one of which
/// anything is left as the row begins, and the line of the source that it comes from, by `legend`. `to state 2 (n5), from +1 on` leads
/// to state 2, passes it a value, and leaves nothing of an iteration before `+1`; since what is left is tidied before the state begins,
/// that may begin with a later one.
///
/// The rows are those of the states before names get registers, and before the rows of the object are tightened: state 2 is no row 2 of
/// a listing of `pview`.
pub fn explanation_text(
    alloc: Global,
    limits: Limits,
    legend: &Legend,
    line: Option<u32>,
    loops: &[LoopExplanation],
) -> Result<Vec<u8>, AllocError>
    requires can { AllByRecursion (CanBeWritten limits) (explanations_in loops.now) }
    ensures { IfOk result (λ text. text.items ≡ explanation_text limits (legend_in legend.now) line (explanations_in loops.now)) }
{
    let mut text = String::new(alloc);
    push_no_loop(&mut text, line, loops)?;
    push_loops(alloc, &mut text, limits, legend, loops)?;
    Ok(text.into_bytes())
}

/// Appends the line that says that there is no explanation to a text, where there is none.
fn push_no_loop(
    text: &mut String,
    asked: Option<u32>,
    loops: &[LoopExplanation],
) -> Result<(), AllocError>
    ensures { OnOk result (string_bytes text.new ≡ string_bytes text.old ++ lines_text (no_loop_lines asked (explanations_in loops.now))) }
{
    match loops {
        [] => {
            push_no_loop_words(text, asked)?;
            text.push_str("\n")
        }
        _ => Ok(()),
    }
}

/// Appends the lines of loops to a text.
fn push_loops(
    alloc: Global,
    text: &mut String,
    limits: Limits,
    legend: &Legend,
    loops: &[LoopExplanation],
) -> Result<(), AllocError>
    requires { AllByRecursion (λ it. CanBeWritten limits (explanation_in it)) loops.now }
    ensures { OnOk result (string_bytes text.new ≡ string_bytes text.old
        ++ lines_text (flat_map (explanation_lines limits (legend_in legend.now)) (explanations_in loops.now))) }
{
    for explanation in loops {
        push_explanation(alloc, text, limits, legend, explanation)?;
    }
    Ok(())
}

/// Appends the lines of a loop to a text.
fn push_explanation(
    alloc: Global,
    text: &mut String,
    limits: Limits,
    legend: &Legend,
    it: &LoopExplanation,
) -> Result<(), AllocError>
    requires { CanBeWritten limits (explanation_in it.now) }
    ensures { OnOk result (string_bytes text.new ≡ string_bytes text.old
        ++ lines_text (explanation_lines limits (legend_in legend.now) (explanation_in it.now))) }
{
    push_note(text, it.note)?;
    push_schedule(alloc, text, limits, legend, it.region, &it.schedule)
}

/// Appends the line of a note to a text, if there is one.
fn push_note(text: &mut String, note: Option<Note>) -> Result<(), AllocError>
    requires { AllByRecursion IsChoice (note_list note) }
    ensures { OnOk result (string_bytes text.new ≡ string_bytes text.old ++ lines_text (map note_words (note_list note))) }
{
    match note {
        None => Ok(()),
        Some(note) => {
            push_note_words(text, note)?;
            text.push_str("\n")
        }
    }
}

/// Appends the lines of the schedule of a loop with this header to a text, if there is one.
#[tactic(auto, using(crate::proofs::Traced::can_be_traced))]
fn push_schedule(
    alloc: Global,
    text: &mut String,
    limits: Limits,
    legend: &Legend,
    header: u32,
    schedule: &Option<Schedule>,
) -> Result<(), AllocError>
    requires { IfSome (option_map schedule_in schedule.now) (ScheduleCanBeWritten limits) }
    ensures { OnOk result (string_bytes text.new ≡ string_bytes text.old
        ++ lines_text (schedule_lines limits (legend_in legend.now) header (option_map schedule_in schedule.now))) }
{
    match schedule {
        None => Ok(()),
        Some(schedule) => {
            push_cycles(text, legend, &schedule.told, schedule.cycles.as_slice())?;
            push_states(alloc, text, limits, legend, header, schedule)
        }
    }
}
