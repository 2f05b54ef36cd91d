//! The report of a compilation.
ghost use Rattle.std.specs.Prelude.{◌≡◌, ◌≤◌, ◌++◌, IfOk, OnOk, map, string_bytes};
ghost use Rattle.std.specs.List.{flat_map, AllByRecursion};
ghost use Rattle.pc_object.specs.ObjectText.{IsChoice};
ghost use Rattle.pc_report.specs.Report.{choice_text, pass_of, pass_line, note_line, note_words, report_of, report_lines};

use crate::error::ReportError;
use pc_object::Note;
use std::alloc::{AllocError, Global};

/// A pass over the flow graph: its name, and how many changes it made.
#[derive(Clone, Copy, Debug)]
pub struct PassFact<'a> {
    pub name: &'a str,
    pub changes: u64,
}

/// What is reported of a compilation: the nodes of the flow graph, the rows of the code that was
/// written, the passes in the order in which they ran, and the notes of the object.
#[derive(Clone, Copy, Debug)]
pub struct ReportFacts<'a> {
    pub nodes: u32,
    pub rows: u32,
    pub passes: &'a [PassFact<'a>],
    pub notes: &'a [Note],
}

/// The report of a compilation.
pub fn report_text(alloc: Global, facts: &ReportFacts) -> Result<Vec<u8>, ReportError>
    requires { AllByRecursion IsChoice facts.now.notes.now }
    ensures { IfOk result (λ text. text.items ≡ report_lines (report_of facts.now)) }
{
    let (nodes, rows) = (facts.nodes, facts.rows);
    let mut text = format!(in alloc; "nodes {nodes}\nrows {rows}\n")?;
    push_passes(&mut text, facts.passes)?;
    push_notes(&mut text, facts.notes)?;
    Ok(text.into_bytes())
}

/// Appends the lines of passes to a text.
fn push_passes(text: &mut String, passes: &[PassFact]) -> Result<(), AllocError>
    ensures { OnOk result (string_bytes text.new ≡ string_bytes text.old ++ flat_map pass_line (map pass_of passes.now)) }
{
    for pass in passes {
        push_pass(text, pass)?;
    }
    Ok(())
}

/// Appends the line of a pass to a text.
fn push_pass(text: &mut String, pass: &PassFact) -> Result<(), AllocError>
    ensures { OnOk result (string_bytes text.new ≡ string_bytes text.old ++ pass_line (pass_of pass.now)) }
{
    let (name, changes) = (pass.name, pass.changes);
    writeln!(text, "pass {name} {changes}")
}

/// Appends the lines of notes to a text.
fn push_notes(text: &mut String, notes: &[Note]) -> Result<(), AllocError>
    requires { AllByRecursion IsChoice notes.now }
    ensures { OnOk result (string_bytes text.new ≡ string_bytes text.old ++ flat_map note_line notes.now) }
{
    for note in notes {
        push_note(text, *note)?;
    }
    Ok(())
}

/// Appends the line of a note to a text.
fn push_note(text: &mut String, note: Note) -> Result<(), AllocError>
    requires { IsChoice note }
    ensures { OnOk result (string_bytes text.new ≡ string_bytes text.old ++ note_line note) }
{
    push_note_words(text, note)?;
    text.push_str("\n")
}

/// Appends a note in words to a text, without a line feed.
pub fn push_note_words(text: &mut String, note: Note) -> Result<(), AllocError>
    requires { IsChoice note }
    ensures { OnOk result (string_bytes text.new ≡ string_bytes text.old ++ note_words note) }
{
    let form = choice_words(note.choice);
    let (line, number, limit) = (note.line, note.number, note.limit);
    write!(text, "loop {line}: {form} {number} of {limit}")
}

/// The form of a loop, and what decided it, by the choice of its note.
fn choice_words(choice: u8) -> &'static str
    requires { choice ≤ 7 }
    ensures { result.now ≡ choice_text choice }
{
    match choice {
        0 => "pipelined, rows",
        1 => "packed, rows",
        2 => "packed, live",
        3 => "packed, bytes",
        4 => "packed, window",
        5 => "plain, rows",
        6 => "plain, live",
        7 => "plain, bytes",
        _ => unreachable!(),
    }
}
