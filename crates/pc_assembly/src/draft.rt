//! The reader of lines, one after the other.

ghost use Rattle.std.specs.Prelude.{◌≡◌, ◌+◌, ◌^◌, ◌++◌, ◌≤◌, ◌<◌, length, IfOk, OnOk};
ghost use Rattle.pc_word.specs.Exact.{IsExact};
ghost use Rattle.pc_assembly.specs.models.Causes.{halt_cause};
ghost use Rattle.pc_assembly.specs.models.Headers.{header_of};
ghost use Rattle.pc_assembly.specs.models.Drafts.{draft_of};
ghost use Rattle.pc_assembly.specs.models.Tables.{names_in};
ghost use Rattle.pc_assembly.specs.models.Ranges.{IsByteContent};
ghost use Rattle.pc_assembly.specs.Object.{listing_cause};
ghost use Rattle.pc_assembly.specs.Text.{lines_of, place_of};
ghost use Rattle.pc_assembly.specs.Lines.{line_here};
ghost use Rattle.pc_assembly.specs.Limits.{header_at};
ghost use Rattle.pc_assembly.specs.Bytes.{after_run};
ghost use Rattle.pc_assembly.specs.declared.bytes.Class.TheVariants as class;
ghost use Rattle.pc_assembly.specs.Listing.{in_line, first_line, no_lines, draft_with, line_read, lines_read, due_at, ended, body_read};
ghost use Rattle.pc_assembly.specs.Assembled.{content_rows, rows_bytes};

use crate::bytes::{Class, after_run, unblank};
use crate::error::{Complaint, Expected, Halt, ListingError};
use crate::limits::{Header, header_line};
use crate::line::{Content, Line, Side, Stage, Totals};
use crate::lines::line_here;
use crate::names::Names;
use crate::pushing::push_content;
use crate::spelling::Word;
use crate::text::{cut_line, line_start, place_of};
use crate::words::is_end;
use std::alloc::{AllocError, Global};

/// The lines that were read, what is due after them, and the bytes of the rows that they tell.
#[derive(Drop)]
pub struct Draft {
    pub lines: Vec<Line>,
    pub stage: Stage,
    pub rows: Vec<u8>,
}

/// A complaint with its place in the text.
fn unexpected_in(number: usize, line: &[u8], complaint: Complaint) -> ListingError
    ensures { result ≡ ListingError.Unexpected (place_of number line.now complaint.left) complaint.expected }
{
    ListingError::Unexpected {
        at: place_of(number, line, complaint.left),
        expected: complaint.expected,
    }
}

/// What the first line says.
fn header_in(alloc: Global, number: usize, line: &[u8]) -> Result<Header, ListingError>
    ensures read { IsExact header_of listing_cause result (in_line number line.now (header_at line.now)) }
    ensures few { IfOk result (λ header. length header.arrays.items ≤ 255) }
{
    match header_line(alloc, line) {
        Ok(header) => Ok(header),
        Err(Halt::Memory) => Err(ListingError::Memory),
        Err(Halt::Unexpected(complaint)) => Err(unexpected_in(number, line, complaint)),
    }
}

/// What a line tells, and what is due after it.
fn content_in(
    names: &Names,
    lengths: &[u32],
    stage: Stage,
    number: usize,
    line: &[u8],
) -> Result<(Stage, Content), ListingError>
    ensures read { IsExact (λ x. x) listing_cause result
        (in_line number line.now (line_here (names_in names.now) lengths.now stage (after_run class.Indent line.now))) }
    ensures bound { IfOk result (λ x. IsByteContent x.1) }
{
    match line_here(names, lengths, stage, after_run(Class::Indent, line)) {
        Ok(read) => Ok(read),
        Err(Halt::Memory) => Err(ListingError::Memory),
        Err(Halt::Unexpected(complaint)) => Err(unexpected_in(number, line, complaint)),
    }
}

/// The first line that tells anything, its number, and the text after it.
#[tactic(auto, unfolding(crate::specs::Listing::first_line, crate::specs::Text::lines_of))]
pub fn first_line(alloc: Global, text: &[u8]) -> Result<(Header, usize, &[u8]), ListingError>
    ensures read { IsExact (λ x. (header_of x.0, x.1, lines_of x.2.now)) listing_cause result (first_line 1 (lines_of text.now)) }
    ensures few { IfOk result (λ x. length x.0.arrays.items ≤ 255) }
    ensures within { IfOk result (λ x. x.1 + length x.2.now ≤ length text.now) }
{
    let mut number = 1;
    let mut rest = text;
    while !rest.is_empty() {
        let (line, after) = cut_line(rest);
        if !is_end(unblank(line)) {
            let header = header_in(alloc, number, line)?;
            return Ok((header, number, after));
        }
        number += 1;
        rest = after;
    }
    Err(ListingError::Unexpected {
        at: line_start(number),
        expected: Expected::Word(Word::Limits),
    })
}

/// Keeps what a line tells, and what is due after it.
fn keep(
    draft: &mut Draft,
    number: usize,
    line: &[u8],
    next: Stage,
    content: Content,
) -> Result<(), AllocError>
    requires { IsByteContent content }
    ensures read { OnOk result (draft_of draft.new ≡ draft_with (draft_of draft.old) number line.now (next, content)) }
    ensures rows { OnOk result (draft.new.rows.items ≡ draft.old.rows.items ++ content_rows content) }
{
    push_content(&mut draft.rows, content)?;
    let start = after_run(Class::Indent, line);
    let at = place_of(number, line, start.len());
    draft.lines.push(Line { at, content })?;
    draft.stage = next;
    Ok(())
}

/// Reads a line.
#[tactic(auto, unfolding(crate::specs::Listing::line_read))]
fn read_line(
    draft: &mut Draft,
    names: &Names,
    lengths: &[u32],
    number: usize,
    line: &[u8],
) -> Result<(), ListingError>
    requires { draft.old.rows.items ≡ rows_bytes draft.old.lines.items }
    ensures read { IsExact (λ _. draft_of draft.new) listing_cause result (line_read (names_in names.now) lengths.now (draft_of draft.old) number line.now) }
    ensures rows { OnOk result (draft.new.rows.items ≡ rows_bytes draft.new.lines.items) }
{
    if is_end(after_run(Class::Indent, line)) {
        return Ok(());
    }
    let (next, content) = content_in(names, lengths, draft.stage, number, line)?;
    keep(draft, number, line, next, content)?;
    Ok(())
}

/// Reads lines, numbered from `first` on; what is read, and the number of the line after them.
#[tactic(auto, unfolding(crate::specs::Listing::lines_read, crate::specs::Text::lines_of))]
fn read_lines(
    alloc: Global,
    names: &Names,
    lengths: &[u32],
    first: usize,
    text: &[u8],
) -> Result<(Draft, usize), ListingError>
    requires { first + length text.now < 2 ^ 64 }
    ensures read { IsExact (λ x. (draft_of x.0, x.1)) listing_cause result (lines_read (names_in names.now) lengths.now no_lines first (lines_of text.now)) }
    ensures rows { IfOk result (λ x. x.0.rows.items ≡ rows_bytes x.0.lines.items) }
{
    let mut draft = Draft {
        lines: Vec::new(alloc),
        stage: Stage::Data {
            array: 0,
            element: 0,
        },
        rows: Vec::new(alloc),
    };
    let mut number = first;
    let mut rest = text;
    while !rest.is_empty() {
        let (line, after) = cut_line(rest);
        read_line(&mut draft, names, lengths, number, line)?;
        number += 1;
        rest = after;
    }
    Ok((draft, number))
}

/// With what a line of a row begins that is due.
fn due_at(side: Side) -> Expected
    ensures { result ≡ due_at side }
{
    match side {
        Side::Neither => Expected::Part,
        Side::Yes => Expected::Word(Word::Yes),
        Side::No => Expected::Word(Word::No),
    }
}

/// How many rows and notes there are, at the end of the text.
fn ended(number: usize, stage: Stage) -> Result<Totals, ListingError>
    ensures { IsExact (λ x. x) listing_cause result (ended number stage) }
{
    match stage {
        Stage::Data { .. } => Err(ListingError::Unexpected {
            at: line_start(number),
            expected: Expected::RowOrName,
        }),
        Stage::Part { side, .. } => Err(ListingError::Unexpected {
            at: line_start(number),
            expected: due_at(side),
        }),
        Stage::Row { next } => Ok(Totals {
            rows: next,
            notes: 0,
        }),
        Stage::Note { rows, notes } => Ok(Totals { rows, notes }),
    }
}

/// The lines after the first one, with the bytes of their rows, and how many rows and notes there are.
#[tactic(auto, unfolding(crate::specs::Listing::body_read))]
pub fn body(
    alloc: Global,
    names: &Names,
    lengths: &[u32],
    first: usize,
    text: &[u8],
) -> Result<(Draft, Totals), ListingError>
    requires { first + length text.now < 2 ^ 64 }
    ensures read { IsExact (λ x. (x.0.lines.items, x.1)) listing_cause result (body_read (names_in names.now) lengths.now first (lines_of text.now)) }
    ensures rows { IfOk result (λ x. x.0.rows.items ≡ rows_bytes x.0.lines.items) }
{
    let (draft, number) = read_lines(alloc, names, lengths, first, text)?;
    let totals = ended(number, draft.stage)?;
    Ok((draft, totals))
}
