//! Names of rows, which a text by hand may have in place of their numbers.

ghost use Rattle.std.specs.Prelude.{◌≡◌, ◌≤◌, IfOk, IfErr, OnOk};
ghost use Rattle.std.specs.List.{list_any};
ghost use Rattle.pc_word.specs.Exact.{IsExact};
ghost use Rattle.pc_assembly.specs.models.Causes.{halt_cause};
ghost use Rattle.pc_assembly.specs.models.Tables.{names_in};
ghost use Rattle.pc_assembly.specs.Object.{listing_cause};
ghost use Rattle.pc_assembly.specs.Text.{lines_of};
ghost use Rattle.pc_assembly.specs.Words.{is_next};
ghost use Rattle.pc_assembly.specs.Names.{is_letter_next, is_name, name_here, row_named, with_name, is_named, names_after, rows_after, most_row, names_of};

use crate::bytes::{Class, after_run, cut_run, run, unblank};
use crate::error::{Expected, Halt, ListingError, unexpected};
use crate::spelling::{Mark, Word};
use crate::text::cut_line;
use crate::words::{is_mark, is_next};
use indexmap::IndexMap;
use std::alloc::{AllocError, Global};

/// The greatest number that a row may have.
pub const MOST_ROW: u32 = 16_777_215;

/// The words with which no name begins.
const TAKEN: [Word; 10] = [
    Word::R,
    Word::A,
    Word::Row,
    Word::If,
    Word::Yes,
    Word::No,
    Word::Goto,
    Word::Stop,
    Word::Trap,
    Word::Print,
];

/// Names, each with the row that has it.
pub type Names<'a> = IndexMap<&'a [u8], u32>;

/// Whether a letter stands at the beginning.
fn is_letter_next(bytes: &[u8]) -> bool
    ensures { result ≡ is_letter_next bytes.now }
{
    match bytes {
        [] => false,
        [byte, ..] => Class::Letter.has(*byte),
    }
}

/// Whether one of these words stands at the beginning.
fn is_any_next(words: &[Word], bytes: &[u8]) -> bool
    ensures { result ≡ list_any (λ word. is_next word bytes.now) words.now }
{
    for word in words {
        if is_next(*word, bytes) {
            return true;
        }
    }
    false
}

/// Whether a name stands here.
#[tactic(auto, unfolding(crate::specs::Names::is_name))]
fn is_name(bytes: &[u8]) -> bool
    ensures { result ≡ is_name bytes.now }
{
    is_letter_next(bytes) && !is_any_next(&TAKEN, bytes)
}

/// A name.
#[tactic(auto, unfolding(crate::specs::Names::name_here))]
pub fn name_here(bytes: &[u8]) -> Result<(&[u8], &[u8]), Halt>
    ensures { IsExact (λ x. (x.0.now, x.1.now)) halt_cause result (name_here bytes.now) }
{
    if is_name(bytes) {
        return Ok(cut_run(Class::Name, bytes));
    }
    Err(unexpected(bytes, Expected::RowOrName))
}

/// The row that has a name.
pub fn row_named(names: &Names, name: &[u8]) -> Option<u32>
    ensures { result ≡ row_named (names_in names.now) name.now }
{
    names.get(name).copied()
}

/// Whether a name and a colon stand here.
#[tactic(auto, unfolding(crate::specs::Names::is_named))]
pub fn is_named(bytes: &[u8]) -> bool
    ensures { result ≡ is_named bytes.now }
{
    is_mark(Mark::Colon, unblank(after_run(Class::Name, bytes))) && is_name(bytes)
}

/// Keeps the name of a row, unless a row before has it.
fn keep_name<'a>(names: &mut Names<'a>, name: &'a [u8], row: u32) -> Result<(), ListingError>
    ensures names { OnOk result (names_in names.new ≡ with_name (names_in names.old) name.now row) }
    ensures memory { IfErr result (λ error. error ≡ ListingError.Memory) }
{
    if row_named(names, name).is_none() {
        names.insert(name, row)?;
    }
    Ok(())
}

/// Keeps the name that a line gives to the row with this number, if it begins it by a name.
#[tactic(auto, unfolding(crate::specs::Names::names_after))]
fn read_name<'a>(names: &mut Names<'a>, row: u32, bytes: &'a [u8]) -> Result<(), ListingError>
    ensures names { OnOk result (names_in names.new ≡ names_after (names_in names.old) row bytes.now) }
    ensures memory { IfErr result (λ error. error ≡ ListingError.Memory) }
{
    if is_named(bytes) {
        keep_name(names, run(Class::Name, bytes), row)?;
    }
    Ok(())
}

/// How many rows have begun after a line.
#[tactic(auto, unfolding(crate::specs::Names::rows_after))]
fn rows_after(rows: u32, bytes: &[u8]) -> u32
    requires { rows ≤ most_row }
    ensures rows { result ≡ rows_after rows bytes.now }
{
    if is_next(Word::Row, bytes) || is_named(bytes) {
        return rows + 1;
    }
    rows
}

/// The names that the lines of a text give to the rows that begin in them. Of the text nothing is copied.
#[tactic(auto, unfolding(crate::specs::Names::names_from, crate::specs::Text::lines_of))]
pub fn names_of<'a>(alloc: Global, text: &'a [u8]) -> Result<Names<'a>, ListingError>
    ensures names { IfOk result (λ names. names_in names ≡ names_of (lines_of text.now)) }
    ensures memory { IfErr result (λ error. error ≡ ListingError.Memory) }
{
    let mut names = IndexMap::new(alloc);
    let mut rows = 0;
    let mut rest = text;
    while !rest.is_empty() {
        if rows > MOST_ROW {
            return Ok(names);
        }
        let (line, after) = cut_line(rest);
        let bytes = after_run(Class::Indent, line);
        read_name(&mut names, rows, bytes)?;
        rows = rows_after(rows, bytes);
        rest = after;
    }
    Ok(names)
}
