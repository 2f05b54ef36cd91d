//! Notes on the loops of a program.
ghost use Rattle.std.specs.Prelude.{◌≡◌, ◌<◌, ◌≤◌, ◌++◌, length, IfOk, IfSome, OnOk};
ghost use Rattle.pc_table.specs.StoredTable.{table_of};
ghost use Rattle.pc_compile.specs.Notes.{caused_note, packed_note, form_notes, choice_notes, note_list, notes_of};
ghost use Rattle.pc_compile.specs.models.Heading.{heading_set, headings, without_outer, choice_in, noted, ArePlaces};

use crate::choice::{Cause, Choice, Form};
use pc_object::{Note, NoteList};
use pc_table::RegionTable;
use pc_word::LoopMark;
use std::alloc::{AllocError, Global};

/// The notes of an object: one for each loop in which no other stands and at whose header a region
/// begins that has a form, in the order of the loops. Linear in the loops and choices.
pub(crate) fn notes(
    alloc: Global,
    table: &RegionTable,
    choices: &[Choice],
) -> Result<NoteList, AllocError>
    ensures { IfOk result (λ notes. notes ≡ notes_of (table_of table.now) choices.now) }
{
    let heading = heading(alloc, table, choices)?;
    noted(alloc, table.loops.as_slice(), heading.as_slice(), choices)
}

/// For each loop in which no other stands the place of the first choice of a region that heads it.
#[tactic(auto, using(crate::proofs::LoopNotes::heading))]
fn heading(
    alloc: Global,
    table: &RegionTable,
    choices: &[Choice],
) -> Result<Vec<Option<usize>>, AllocError>
    ensures { IfOk result (λ found. found.items ≡ without_outer (headings (table_of table.now) (length table.now.loops) 0 choices.now) table.now.loops) }
{
    let loops = table.loops.as_slice();
    let mut found = vec![in alloc; None; loops.len()]?;
    let mut at = choices.len();
    while at > 0 {
        at -= 1;
        set_heading(&mut found, table.headed_loop(choices[at].region), Some(at));
    }
    leave_out_outer(loops, &mut found);
    Ok(found)
}

/// Leaves out the choices of loops in which others stand.
fn leave_out_outer(loops: &[LoopMark], heading: &mut Vec<Option<usize>>)
    ensures { heading.new.items ≡ without_outer heading.old.items loops.now }
{
    for mark in loops {
        set_heading(heading, mark.outer, None);
    }
}

/// Sets which choice is of a loop, or that none is, if there is such a loop.
#[tactic(auto, using(crate::proofs::LoopNotes::heading))]
fn set_heading(heading: &mut Vec<Option<usize>>, number: Option<u16>, choice: Option<usize>)
    ensures { heading.new.items ≡ heading_set heading.old.items number choice }
{
    if let Some(number) = number {
        let number = number as usize;
        if number < heading.len() {
            heading[number] = choice;
        }
    }
}

/// The notes of loops, where it was found which choice is of each.
fn noted(
    alloc: Global,
    loops: &[LoopMark],
    heading: &[Option<usize>],
    choices: &[Choice],
) -> Result<NoteList, AllocError>
    requires as_many { length heading.now ≡ length loops.now }
    requires there { ArePlaces (length choices.now) heading.now }
    ensures { IfOk result (λ notes. notes ≡ noted choices.now loops.now heading.now) }
{
    let mut notes = NoteList::new(alloc);
    for at in 0..loops.len() {
        push_note(&mut notes, loops[at].line, choices, heading[at])?;
    }
    Ok(notes)
}

/// Appends the note of a loop to others, where a region that heads it has a form.
fn push_note(
    notes: &mut NoteList,
    line: u32,
    choices: &[Choice],
    heading: Option<usize>,
) -> Result<(), AllocError>
    requires { IfSome heading (λ at. at < length choices.now) }
    ensures { OnOk result (notes.new ≡ notes.old ++ choice_notes line (choice_in choices.now heading)) }
{
    match heading {
        None => Ok(()),
        Some(at) => push_any(notes, choices[at].note(line)),
    }
}

/// Appends a note to others, if there is one.
fn push_any(notes: &mut NoteList, note: Option<Note>) -> Result<(), AllocError>
    ensures { OnOk result (notes.new ≡ notes.old ++ note_list note) }
{
    match note {
        None => Ok(()),
        Some(note) => notes.push(note),
    }
}

impl Choice {
    /// The note of what was chosen for a region that heads a loop, whose keyword stands at this line of the source: its form, and
    /// what decided it. Whatever is chosen has one; a plain form without a cause would have none.
    pub fn note(&self, line: u32) -> Option<Note>
        ensures { note_list result ≡ form_notes line self.now.form self.now.causes }
    {
        let causes = self.causes.as_slice();
        match self.form {
            Form::Pipelined { states, rows } => Some(Note {
                choice: 0,
                line,
                number: states,
                limit: rows,
            }),
            Form::Packed => Some(packed_note(line, causes.first().copied())),
            Form::Plain => match causes.last() {
                // A plain form has a cause, that for which it is not packed.
                None => None,
                Some(cause) => Some(caused_note(line, 5, *cause)),
            },
        }
    }
}

/// The note of a packed region, which is not pipelined for this cause, if there is one.
fn packed_note(line: u32, cause: Option<Cause>) -> Note
    ensures { result ≡ packed_note line cause }
{
    match cause {
        None => Note {
            choice: 4,
            line,
            number: 1,
            limit: 1,
        },
        Some(cause) => caused_note(line, 1, cause),
    }
}

/// The note of a form that was not given for a cause; the first of three choices is that of too many rows.
fn caused_note(line: u32, first: u8, cause: Cause) -> Note
    requires { first ≤ 5 }
    ensures { result ≡ caused_note line first cause }
{
    let (choice, number, limit) = match cause {
        Cause::Rows { number, limit } => (first, number, limit),
        Cause::Live { number, limit } => (1 + first, number, limit),
        Cause::Bytes { number, limit } => (2 + first, number, limit),
    };
    Note {
        choice,
        line,
        number,
        limit,
    }
}
