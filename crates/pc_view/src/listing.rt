//! An object as a text to be read.
ghost use Rattle.std.specs.Prelude.{◌≡◌, ◌++◌, ◌∷◌, [], ◌<◌, ◌≤◌, ◌^◌, length, map, IfOk, OnOk, None, codes, option_map, string_bytes};
ghost use Rattle.pc_word.specs.Line.{line};
ghost use Rattle.pc_view.specs.Leading.{rows_leading_to};
ghost use Rattle.pc_view.specs.Tree.{tree_lines};
ghost use Rattle.std.specs.List.{AllByRecursion};
ghost use Rattle.pc_machine.specs.MachineCode.{row_of, rows_of, code_of};
ghost use Rattle.pc_object.specs.ObjectText.{object_of, IsObject, IsChoice};
ghost use Rattle.pc_report.specs.Report.{note_words};
ghost use Rattle.pc_view.specs.Listing.{separator, array_words, arrays_from, register_words, leading_words, row_numbers_from};
ghost use Rattle.pc_view.specs.Listing.{limit_words, limits_line, count_words, heading, row_lines, rows_lines, lines_text, listing_lines, listing_text, row_text, tallied_listing_text};
ghost use Rattle.pc_view.specs.Tally.{tallied};
ghost use Rattle.pc_view.specs.models.Counted.{HasFew};
ghost use Rattle.pc_view.specs.models.Rows.{CanList};
ghost use Rattle.pc_view.specs.models.Lists.{AreLists};

use crate::counts::count;
use crate::data::push_data;
use crate::leading::{RowNumbers, leading_rows};
use crate::rows::{RowTold, push_tree};
use crate::tally::{Tally, push_cycles};
use pc_machine::{Code, Counts, FEW_REGISTERS, Tree};
use pc_object::{Note, Object};
use pc_report::push_note_words;
use pc_word::Limits;
use std::alloc::{AllocError, Global};

/// An object as a text to be read: a line for the limits, the arrays and the registers, where these are more than
/// the fewer; the words with which each array begins, a line each; each row with its number, what it has
/// of what it may have, the rows that lead to it, and its tree; a line for each note.
pub fn listing_text(alloc: Global, object: &Object) -> Result<Vec<u8>, AllocError>
    requires { IsObject (object_of object.now) }
    ensures { IfOk result (λ text. text.items ≡ listing_text (object_of object.now)) }
{
    listing(alloc, object, None)
}

/// The same text of an object that was run, in which each row's first line also tells how often the row ran, and
/// each line of a leaf how often the leaf was taken. `tally` has the counts; where it has none, 0 is told.
pub fn tallied_listing_text(
    alloc: Global,
    object: &Object,
    tally: Tally,
) -> Result<Vec<u8>, AllocError>
    requires { IsObject (object_of object.now) }
    ensures { IfOk result (λ text. text.items ≡ tallied_listing_text (tallied tally.entry) (object_of object.now)) }
{
    listing(alloc, object, Some(tally))
}

/// The lines of one row as they stand in the listing of its object: its number, what it has of what it may have, the
/// rows that lead to it, and its tree. There are none where the code has no row of this number.
pub fn row_text(alloc: Global, object: &Object, number: u32) -> Result<Vec<u8>, AllocError>
    requires { IsObject (object_of object.now) }
    ensures { IfOk result (λ text. text.items ≡ row_text (object_of object.now).code number) }
{
    let mut text = String::new(alloc);
    push_row_at(alloc, &mut text, &object.code, number as usize)?;
    Ok(text.into_bytes())
}

/// Appends the lines of the row with a number to a text, if there is one.
fn push_row_at(
    alloc: Global,
    text: &mut String,
    code: &Code,
    number: usize,
) -> Result<(), AllocError>
    requires few { length code.now.rows < 2 ^ 32 }
    requires rows { CanList (length code.now.rows) code.now.rows }
    ensures { OnOk result (string_bytes text.new ≡ string_bytes text.old ++ row_text (code_of code.now) number) }
{
    let rows = code.rows.as_slice();
    let Some(row) = rows.get(number) else {
        return Ok(());
    };
    let leading = leading_rows(alloc, rows)?;
    push_row(alloc, text, code, number, row, leading.as_slice(), None)
}

/// The listing of an object, with how often its rows ran and their leaves were taken, if that is to be told.
fn listing(alloc: Global, object: &Object, told: Option<Tally>) -> Result<Vec<u8>, AllocError>
    requires { IsObject (object_of object.now) }
    ensures { IfOk result (λ text. text.items ≡ lines_text (listing_lines (option_map tallied told.entry) (object_of object.now))) }
{
    let mut text = String::new(alloc);
    push_limits(&mut text, &object.code)?;
    text.push_str("\n")?;
    push_data(&mut text, object.code.initial.as_slice())?;
    push_rows(alloc, &mut text, &object.code, told)?;
    push_notes(&mut text, object.notes.as_slice())?;
    Ok(text.into_bytes())
}

/// Appends the limits, the arrays and the registers to a text.
fn push_limits(text: &mut String, code: &Code) -> Result<(), AllocError>
    ensures { OnOk result (string_bytes text.new ≡ string_bytes text.old ++ limits_line (code_of code.now)) }
{
    push_limit_words(text, code.limits)?;
    push_arrays(text, code.arrays.as_slice())?;
    push_registers(text, code.registers)
}

/// Appends how many registers there are to a text, where these are not the fewer.
fn push_registers(text: &mut String, registers: u16) -> Result<(), AllocError>
    ensures { OnOk result (string_bytes text.new ≡ string_bytes text.old ++ register_words registers) }
{
    if registers as usize == FEW_REGISTERS {
        return Ok(());
    }
    write!(text, "; registers: {registers}")
}

/// Appends the limits to a text.
#[tactic(auto, unfolding(crate::specs::Listing::limit_words))]
fn push_limit_words(text: &mut String, limits: Limits) -> Result<(), AllocError>
    ensures { OnOk result (string_bytes text.new ≡ string_bytes text.old ++ limit_words limits) }
{
    let Limits { ops, tests, mem } = limits;
    write!(
        text,
        "limits of a row: {ops} items, {tests} tests, {mem} loads and stores"
    )
}

/// Appends the arrays to a text.
fn push_arrays(text: &mut String, lengths: &[u32]) -> Result<(), AllocError>
    ensures { OnOk result (string_bytes text.new ≡ string_bytes text.old ++ array_words lengths.now) }
{
    match lengths {
        [] => text.push_str("; arrays: none"),
        _ => {
            text.push_str("; arrays:")?;
            push_each_array(text, lengths)
        }
    }
}

/// Appends arrays to a text, if there are any.
fn push_each_array(text: &mut String, lengths: &[u32]) -> Result<(), AllocError>
    ensures { OnOk result (string_bytes text.new ≡ string_bytes text.old ++ arrays_from 0 lengths.now) }
{
    for (number, length) in lengths.iter().enumerate() {
        let front = separator(number);
        write!(text, "{front}a{number}[{length}]")?;
    }
    Ok(())
}

/// What stands in front of an element of a list, by its number.
fn separator(number: usize) -> &'static str
    ensures { result.now ≡ separator number }
{
    if number == 0 { " " } else { ", " }
}

/// Appends the rows that lead to a row to a text.
fn push_leading(text: &mut String, numbers: &[u32]) -> Result<(), AllocError>
    ensures { OnOk result (string_bytes text.new ≡ string_bytes text.old ++ leading_words numbers.now) }
{
    match numbers {
        [] => text.push_str("; from rows: none"),
        _ => {
            text.push_str("; from rows:")?;
            push_each_number(text, numbers)
        }
    }
}

/// Appends numbers of rows to a text, if there are any.
fn push_each_number(text: &mut String, numbers: &[u32]) -> Result<(), AllocError>
    ensures { OnOk result (string_bytes text.new ≡ string_bytes text.old ++ row_numbers_from 0 numbers.now) }
{
    for (place, number) in numbers.iter().enumerate() {
        let front = separator(place);
        write!(text, "{front}{number}")?;
    }
    Ok(())
}

/// Appends the lines of the rows to a text.
fn push_rows(
    alloc: Global,
    text: &mut String,
    code: &Code,
    told: Option<Tally>,
) -> Result<(), AllocError>
    requires few { length code.now.rows < 2 ^ 32 }
    requires rows { CanList (length code.now.rows) code.now.rows }
    ensures { OnOk result (string_bytes text.new ≡ string_bytes text.old ++ lines_text (rows_lines (option_map tallied told.entry) (code_of code.now) 0 (rows_of code.now.rows))) }
{
    let rows = code.rows.as_slice();
    let leading = leading_rows(alloc, rows)?;
    for (number, row) in rows.iter().enumerate() {
        push_row(alloc, text, code, number, row, leading.as_slice(), told)?;
    }
    Ok(())
}

/// Appends the lines of a row to a text. `leading` has the rows that lead to each row.
fn push_row(
    alloc: Global,
    text: &mut String,
    code: &Code,
    number: usize,
    row: &Tree,
    leading: &[RowNumbers],
    told: Option<Tally>,
) -> Result<(), AllocError>
    requires number { number < length code.now.rows }
    requires few { HasFew (row_of row.now) }
    requires leading { AreLists (length code.now.rows) (rows_of code.now.rows) leading.now }
    ensures { OnOk result (string_bytes text.new ≡ string_bytes text.old ++ lines_text (row_lines (option_map tallied told.entry) (code_of code.now) number (row_of row.now))) }
{
    let leading = leading_at(code, number, leading);
    push_first_line(text, code.limits, number, row, leading, told)?;
    push_tree_lines(alloc, text, number, row, told)
}

/// The rows that lead to a row.
fn leading_at<'a>(code: &Code, number: usize, leading: &'a [RowNumbers]) -> &'a [u32]
    requires number { number < length code.now.rows }
    requires leading { AreLists (length code.now.rows) (rows_of code.now.rows) leading.now }
    ensures { result.now ≡ rows_leading_to number 0 (rows_of code.now.rows) }
{
    leading[number].as_slice()
}

/// Appends the first line of a row to a text. `leading` has the rows that lead to it.
fn push_first_line(
    text: &mut String,
    limits: Limits,
    number: usize,
    row: &Tree,
    leading: &[u32],
    told: Option<Tally>,
) -> Result<(), AllocError>
    requires { HasFew (row_of row.now) }
    ensures { OnOk result (string_bytes text.new ≡ string_bytes text.old
        ++ line (heading (option_map tallied told.entry) limits number (row_of row.now) leading.now)) }
{
    push_heading(text, limits, number, row, leading, told)?;
    text.push_str("\n")
}

/// Appends the other lines of a row to a text.
fn push_tree_lines(
    alloc: Global,
    text: &mut String,
    number: usize,
    row: &Tree,
    told: Option<Tally>,
) -> Result<(), AllocError>
    requires { HasFew (row_of row.now) }
    ensures { OnOk result (string_bytes text.new ≡ string_bytes text.old
        ++ lines_text (tree_lines (option_map tallied told.entry) number 0 (codes "    ") (codes "    ") (row_of row.now))) }
{
    let told = RowTold {
        tally: told,
        number,
    };
    push_tree(alloc, text, "    ", "    ", row, told, 0)
}

/// Appends the heading of a row to a text.
fn push_heading(
    text: &mut String,
    limits: Limits,
    number: usize,
    row: &Tree,
    leading: &[u32],
    told: Option<Tally>,
) -> Result<(), AllocError>
    requires { HasFew (row_of row.now) }
    ensures { OnOk result (string_bytes text.new ≡ string_bytes text.old ++ heading (option_map tallied told.entry) limits number (row_of row.now) leading.now) }
{
    push_count_words(text, limits, number, row)?;
    push_leading(text, leading)?;
    push_cycles(text, told, number)
}

/// Appends the number of a row, and what it has of what it may have, to a text.
#[tactic(auto, unfolding(crate::specs::Listing::count_words))]
fn push_count_words(
    text: &mut String,
    limits: Limits,
    number: usize,
    row: &Tree,
) -> Result<(), AllocError>
    requires { HasFew (row_of row.now) }
    ensures { OnOk result (string_bytes text.new ≡ string_bytes text.old ++ count_words limits number (row_of row.now)) }
{
    let Counts { ops, tests, mem } = count(row);
    let (most_ops, most_tests, most_mem) = (limits.ops, limits.tests, limits.mem);
    write!(
        text,
        "row {number}: {ops} of {most_ops} items, {tests} of {most_tests} tests, {mem} of {most_mem} loads and stores"
    )
}

/// Appends the lines of notes to a text.
fn push_notes(text: &mut String, notes: &[Note]) -> Result<(), AllocError>
    requires { AllByRecursion IsChoice notes.now }
    ensures { OnOk result (string_bytes text.new ≡ string_bytes text.old ++ lines_text (map note_words notes.now)) }
{
    for note in notes {
        push_note_words(text, *note)?;
        text.push_str("\n")?;
    }
    Ok(())
}
