//! The reader of a line, by what is due.

ghost use Rattle.std.specs.Prelude.{◌≡◌, ◌≤◌, IfOk, nat_lt, slice_index};
ghost use Rattle.pc_word.specs.Exact.{IsExact};
ghost use Rattle.pc_assembly.specs.models.Causes.{halt_cause};
ghost use Rattle.pc_assembly.specs.models.Tables.{names_in};
ghost use Rattle.pc_assembly.specs.Names.{most_row};
ghost use Rattle.pc_assembly.specs.models.Ranges.{IsByteContent};
ghost use Rattle.pc_assembly.specs.Lines.{is_in_turn, in_turn, word_line, used_at, usage_at, usage_or_end, usage_here, numbered_at, is_row, named_here, row_here, row_line, side_here, stage_after_leaf, stage_after, part_line, note_line, data_line, is_note, next_line, line_here};

use crate::bytes::{Class, after_run, unblank};
use crate::error::{Expected, Halt, unexpected};
use crate::limits::memory;
use crate::line::{Content, Side, Stage};
use crate::names::{MOST_ROW, Names, is_named, name_here, row_named};
use crate::notes::note_here;
use crate::operands::{array_here, literal_here};
use crate::part::Part;
use crate::parts::part_here;
use crate::spelling::{Mark, Word};
use crate::words::{
    end, is_alone, is_end, is_mark, is_next, mark, number, number_is, word, word_here,
};

/// Whether an element is one of its array, by the lengths of the arrays.
fn is_within(lengths: &[u32], array: u8, element: u32) -> bool
    ensures { result ≡ nat_lt element (slice_index lengths.now array) }
{
    match lengths.get(array as usize) {
        Some(length) => element < *length,
        None => false,
    }
}

/// Whether an element's word may follow where this element's is due.
fn is_in_turn(lengths: &[u32], due_array: u8, due_element: u32, array: u8, element: u32) -> bool
    ensures { result ≡ is_in_turn lengths.now due_array due_element array element }
{
    let is_next = array == due_array && element == due_element || due_array < array && element == 0;
    is_next && is_within(lengths, array, element)
}

/// A word of an array's data.
#[tactic(auto, unfolding(crate::specs::Lines::word_line))]
fn word_line(
    lengths: &[u32],
    due_array: u8,
    due_element: u32,
    bytes: &[u8],
) -> Result<(Stage, Content), Halt>
    ensures read { IsExact (λ x. x) halt_cause result (word_line lengths.now due_array due_element bytes.now) }
    ensures bound { IfOk result (λ x. IsByteContent x.1) }
{
    let (array, rest) = array_here(bytes)?;
    let rest = mark(Mark::OpenBracket, rest)?;
    let (element, rest) = number(u32::MAX, Expected::Element, rest)?;
    if !is_in_turn(lengths, due_array, due_element, array, element) {
        return Err(unexpected(bytes, Expected::Element));
    }
    let rest = mark(Mark::CloseBracket, rest)?;
    let rest = mark(Mark::Equals, rest)?;
    let (value, rest) = literal_here(Expected::Literal, unblank(rest))?;
    end(rest)?;
    let next = Stage::Data {
        array,
        element: element + 1,
    };
    Ok((next, Content::Word { array, value }))
}

/// How many there are of how many there may be.
#[tactic(auto, unfolding(crate::specs::Lines::used_at))]
fn used(bytes: &[u8]) -> Result<&[u8], Halt>
    ensures { IsExact (λ rest. rest.now) halt_cause result (used_at bytes.now) }
{
    let (_, rest) = number(u32::MAX, Expected::Number, bytes)?;
    let rest = word(Word::Of, rest)?;
    let (_, rest) = number(u32::MAX, Expected::Number, rest)?;
    Ok(rest)
}

/// What a row has of what it may have.
#[tactic(auto, unfolding(crate::specs::Lines::usage_at))]
fn usage(bytes: &[u8]) -> Result<&[u8], Halt>
    ensures { IsExact (λ rest. rest.now) halt_cause result (usage_at bytes.now) }
{
    let rest = used(bytes)?;
    let rest = word(Word::Items, rest)?;
    let rest = mark(Mark::Comma, rest)?;
    let rest = used(rest)?;
    let rest = word(Word::Tests, rest)?;
    let rest = mark(Mark::Comma, rest)?;
    let rest = used(rest)?;
    memory(rest)
}

fn usage_or_end(bytes: &[u8]) -> Result<&[u8], Halt>
    ensures { IsExact (λ rest. rest.now) halt_cause result (usage_or_end bytes.now) }
{
    if is_end(bytes) {
        return Ok(bytes);
    }
    usage(bytes)
}

/// What stands after the number of a row, which says nothing of the object.
#[tactic(auto, unfolding(crate::specs::Lines::usage_here))]
fn usage_here(bytes: &[u8]) -> Result<&[u8], Halt>
    ensures { IsExact (λ rest. rest.now) halt_cause result (usage_here bytes.now) }
{
    if !is_mark(Mark::Colon, bytes) {
        return Ok(bytes);
    }
    let rest = mark(Mark::Colon, bytes)?;
    usage_or_end(unblank(rest))
}

/// `row` and the number of a row, and what it has.
#[tactic(auto, unfolding(crate::specs::Lines::numbered_at))]
fn numbered(due: u32, bytes: &[u8]) -> Result<&[u8], Halt>
    ensures { IsExact (λ rest. rest.now) halt_cause result (numbered_at due bytes.now) }
{
    let rest = after_run(Class::Letter, bytes);
    let rest = number_is(MOST_ROW, due, Expected::RowNumber, unblank(rest))?;
    usage_here(unblank(rest))
}

/// Whether a row has a name, and not one before it.
fn is_row(due: u32, row: Option<u32>) -> bool
    ensures { result ≡ is_row due row }
{
    match row {
        Some(row) => row == due,
        None => false,
    }
}

/// A name and a colon, and what the row has.
#[tactic(auto, unfolding(crate::specs::Lines::named_here))]
fn named_here<'a>(names: &Names, due: u32, bytes: &'a [u8]) -> Result<&'a [u8], Halt>
    ensures { IsExact (λ rest. rest.now) halt_cause result (named_here (names_in names.now) due bytes.now) }
{
    let (name, rest) = name_here(bytes)?;
    let rest = mark(Mark::Colon, rest)?;
    if !is_row(due, row_named(names, name)) {
        return Err(unexpected(bytes, Expected::NewName));
    }
    usage_or_end(unblank(rest))
}

/// The row with this number, by it or by a name.
#[tactic(auto, unfolding(crate::specs::Lines::row_here))]
fn row_here<'a>(names: &Names, due: u32, bytes: &'a [u8]) -> Result<&'a [u8], Halt>
    ensures read { IsExact (λ rest. rest.now) halt_cause result (row_here (names_in names.now) due bytes.now) }
    ensures bound { IfOk result (λ _. due ≤ most_row) }
{
    if due > MOST_ROW {
        return Err(unexpected(bytes, Expected::Word(Word::Loop)));
    }
    if is_next(Word::Row, bytes) {
        return numbered(due, bytes);
    }
    named_here(names, due, bytes)
}

/// The first line of the row with this number.
#[tactic(auto, unfolding(crate::specs::Lines::row_line))]
fn row_line(names: &Names, due: u32, bytes: &[u8]) -> Result<(Stage, Content), Halt>
    ensures read { IsExact (λ x. x) halt_cause result (row_line (names_in names.now) due bytes.now) }
    ensures bound { IfOk result (λ x. IsByteContent x.1) }
{
    let rest = row_here(names, due, bytes)?;
    end(rest)?;
    let next = Stage::Part {
        side: Side::Neither,
        sides: 0,
        next: due + 1,
    };
    Ok((next, Content::Row))
}

/// The word that begins the side of a test.
fn side_here(side: Side, bytes: &[u8]) -> Result<&[u8], Halt>
    ensures { IsExact (λ rest. rest.now) halt_cause result (side_here side bytes.now) }
{
    match side {
        Side::Neither => Ok(bytes),
        Side::Yes => word_here(Expected::Word(Word::Yes), Word::Yes, bytes),
        Side::No => word_here(Expected::Word(Word::No), Word::No, bytes),
    }
}

/// What is due after a leaf.
fn stage_after_leaf(sides: u8, next: u32) -> Stage
    ensures { result ≡ stage_after_leaf sides next }
{
    if sides == 0 {
        return Stage::Row { next };
    }
    Stage::Part {
        side: Side::No,
        sides: sides - 1,
        next,
    }
}

/// What is due after a part of a row that stands in the line `bytes`.
fn stage_after(bytes: &[u8], sides: u8, next: u32, part: Part) -> Result<Stage, Halt>
    ensures { IsExact (λ x. x) halt_cause result (stage_after bytes.now sides next part) }
{
    match part {
        Part::Item(_) => Ok(Stage::Part {
            side: Side::Neither,
            sides,
            next,
        }),
        Part::Test(_) => {
            if sides == u8::MAX {
                return Err(unexpected(bytes, Expected::NoTest));
            }
            Ok(Stage::Part {
                side: Side::Yes,
                sides: sides + 1,
                next,
            })
        }
        Part::Leaf(_) => Ok(stage_after_leaf(sides, next)),
    }
}

/// A part of a row.
#[tactic(auto, unfolding(crate::specs::Lines::part_line))]
fn part_line(
    names: &Names,
    side: Side,
    sides: u8,
    next: u32,
    bytes: &[u8],
) -> Result<(Stage, Content), Halt>
    ensures read { IsExact (λ x. x) halt_cause result (part_line (names_in names.now) side sides next bytes.now) }
    ensures bound { IfOk result (λ x. IsByteContent x.1) }
{
    let rest = side_here(side, bytes)?;
    let (part, rest) = part_here(names, unblank(rest))?;
    end(rest)?;
    let after = stage_after(bytes, sides, next, part)?;
    Ok((after, Content::Part(part)))
}

/// A note, after so many rows and notes.
#[tactic(auto, unfolding(crate::specs::Lines::note_line))]
fn note_line(rows: u32, notes: u16, bytes: &[u8]) -> Result<(Stage, Content), Halt>
    ensures read { IsExact (λ x. x) halt_cause result (note_line rows notes bytes.now) }
    ensures bound { IfOk result (λ x. IsByteContent x.1) }
{
    let (note, rest) = note_here(bytes)?;
    end(rest)?;
    if notes == u16::MAX {
        return Err(unexpected(bytes, Expected::TextEnd));
    }
    let next = Stage::Note {
        rows,
        notes: notes + 1,
    };
    Ok((next, Content::Note(note)))
}

fn data_line(
    names: &Names,
    lengths: &[u32],
    array: u8,
    element: u32,
    bytes: &[u8],
) -> Result<(Stage, Content), Halt>
    ensures read { IsExact (λ x. x) halt_cause result (data_line (names_in names.now) lengths.now array element bytes.now) }
    ensures bound { IfOk result (λ x. IsByteContent x.1) }
{
    if is_next(Word::A, bytes) {
        return word_line(lengths, array, element, bytes);
    }
    row_line(names, 0, bytes)
}

/// Whether a note begins here.
fn is_note(bytes: &[u8]) -> bool
    ensures { result ≡ is_note bytes.now }
{
    is_alone(Word::Loop, bytes) && !is_named(bytes)
}

fn next_line(names: &Names, next: u32, bytes: &[u8]) -> Result<(Stage, Content), Halt>
    ensures read { IsExact (λ x. x) halt_cause result (next_line (names_in names.now) next bytes.now) }
    ensures bound { IfOk result (λ x. IsByteContent x.1) }
{
    if is_note(bytes) {
        return note_line(next, 0, bytes);
    }
    row_line(names, next, bytes)
}

/// What a line tells, and what is due after it. Its first word stands where `bytes` begin.
#[tactic(auto, unfolding(crate::specs::Lines::line_here))]
pub fn line_here(
    names: &Names,
    lengths: &[u32],
    stage: Stage,
    bytes: &[u8],
) -> Result<(Stage, Content), Halt>
    ensures read { IsExact (λ x. x) halt_cause result (line_here (names_in names.now) lengths.now stage bytes.now) }
    ensures bound { IfOk result (λ x. IsByteContent x.1) }
{
    match stage {
        Stage::Data { array, element } => data_line(names, lengths, array, element, bytes),
        Stage::Part { side, sides, next } => part_line(names, side, sides, next, bytes),
        Stage::Row { next } => next_line(names, next, bytes),
        Stage::Note { rows, notes } => note_line(rows, notes, bytes),
    }
}
