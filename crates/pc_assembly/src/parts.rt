//! The readers of the parts of a row: items, tests and leaves.

ghost use Rattle.std.specs.Prelude.{◌≡◌, IfOk};
ghost use Rattle.pc_word.specs.Exact.{IsExact};
ghost use Rattle.pc_assembly.specs.models.Causes.{halt_cause};
ghost use Rattle.pc_assembly.specs.models.Tables.{names_in};
ghost use Rattle.pc_assembly.specs.models.Ranges.{IsBytePart};
ghost use Rattle.pc_assembly.specs.Parts.{item_part, leaf_part, test_at, numbered_row, named_row, target_here, goto_at, trap_kind_here, trap_at, leaf_here, part_here};

use crate::bytes::{Class, after_run, unblank};
use crate::error::{Expected, Halt, unexpected};
use crate::items::{assignment_here, print, store_here};
use crate::names::{Names, name_here, row_named};
use crate::operands::operand;
use crate::part::Part;
use crate::spelling::{Mark, Word};
use crate::words::{is_next, mark, number, word};
use pc_machine::Leaf;
use pc_word::TrapKind;

/// What stands after `if`.
#[tactic(auto, unfolding(crate::specs::Parts::test_at))]
fn test(bytes: &[u8]) -> Result<(Part, &[u8]), Halt>
    ensures read { IsExact (λ x. (x.0, x.1.now)) halt_cause result (test_at bytes.now) }
    ensures bound { IfOk result (λ x. IsBytePart x.0) }
{
    let (on, rest) = operand(bytes)?;
    Ok((Part::Test(on), rest))
}

/// The row with the number that stands after `row`.
#[tactic(auto, unfolding(crate::specs::Parts::numbered_row))]
fn numbered_row(bytes: &[u8]) -> Result<(u32, &[u8]), Halt>
    ensures { IsExact (λ x. (x.0, x.1.now)) halt_cause result (numbered_row bytes.now) }
{
    number(u32::MAX, Expected::Number, after_run(Class::Letter, bytes))
}

/// The row with the name that stands here.
#[tactic(auto, unfolding(crate::specs::Parts::named_row))]
fn named_row<'a>(names: &Names, bytes: &'a [u8]) -> Result<(u32, &'a [u8]), Halt>
    ensures { IsExact (λ x. (x.0, x.1.now)) halt_cause result (named_row (names_in names.now) bytes.now) }
{
    let (name, rest) = name_here(bytes)?;
    match row_named(names, name) {
        Some(row) => Ok((row, rest)),
        None => Err(unexpected(bytes, Expected::RowName)),
    }
}

/// The row to which a goto leads.
#[tactic(auto, unfolding(crate::specs::Parts::target_here))]
fn target_here<'a>(names: &Names, bytes: &'a [u8]) -> Result<(u32, &'a [u8]), Halt>
    ensures { IsExact (λ x. (x.0, x.1.now)) halt_cause result (target_here (names_in names.now) bytes.now) }
{
    if is_next(Word::Row, bytes) {
        return numbered_row(bytes);
    }
    named_row(names, bytes)
}

/// What stands after `goto`.
#[tactic(auto, unfolding(crate::specs::Parts::goto_at))]
fn goto<'a>(names: &Names, bytes: &'a [u8]) -> Result<(Leaf, &'a [u8]), Halt>
    ensures { IsExact (λ x. (x.0, x.1.now)) halt_cause result (goto_at (names_in names.now) bytes.now) }
{
    let (row, rest) = target_here(names, unblank(bytes))?;
    Ok((Leaf::Goto { row }, rest))
}

/// Why a run is stopped.
#[tactic(auto, unfolding(crate::specs::Parts::trap_kind_here))]
fn trap_kind_here(bytes: &[u8]) -> Result<(TrapKind, &[u8]), Halt>
    ensures { IsExact (λ x. (x.0, x.1.now)) halt_cause result (trap_kind_here bytes.now) }
{
    let rest = after_run(Class::Letter, bytes);
    if is_next(Word::Divide, bytes) {
        let rest = word(Word::By, rest)?;
        let rest = word(Word::Zero, rest)?;
        return Ok((TrapKind::DivideByZero, rest));
    }
    if is_next(Word::Out, bytes) {
        let rest = word(Word::Of, rest)?;
        let rest = word(Word::Bounds, rest)?;
        return Ok((TrapKind::OutOfBounds, rest));
    }
    if is_next(Word::End, bytes) {
        let rest = word(Word::Of, rest)?;
        let rest = word(Word::Input, rest)?;
        return Ok((TrapKind::EndOfInput, rest));
    }
    Err(unexpected(bytes, Expected::TrapKind))
}

/// What stands after `trap`.
#[tactic(auto, unfolding(crate::specs::Parts::trap_at))]
fn trap(bytes: &[u8]) -> Result<(Leaf, &[u8]), Halt>
    ensures { IsExact (λ x. (x.0, x.1.now)) halt_cause result (trap_at bytes.now) }
{
    let rest = mark(Mark::Colon, bytes)?;
    let (kind, rest) = trap_kind_here(unblank(rest))?;
    let rest = word(Word::At, rest)?;
    let rest = word(Word::Line, rest)?;
    let (line, rest) = number(u32::MAX, Expected::Number, rest)?;
    Ok((Leaf::Trap { kind, line }, rest))
}

/// A leaf; anything else is no part of a row.
#[tactic(auto, unfolding(crate::specs::Parts::leaf_here))]
fn leaf_here<'a>(names: &Names, bytes: &'a [u8]) -> Result<(Leaf, &'a [u8]), Halt>
    ensures { IsExact (λ x. (x.0, x.1.now)) halt_cause result (leaf_here (names_in names.now) bytes.now) }
{
    let rest = after_run(Class::Letter, bytes);
    if is_next(Word::Goto, bytes) {
        return goto(names, rest);
    }
    if is_next(Word::Stop, bytes) {
        return Ok((Leaf::Stop, rest));
    }
    if is_next(Word::Trap, bytes) {
        return trap(rest);
    }
    Err(unexpected(bytes, Expected::Part))
}

/// A part of a row, by the names of the rows.
#[tactic(auto, unfolding(crate::specs::Parts::part_here))]
pub fn part_here<'a>(names: &Names, bytes: &'a [u8]) -> Result<(Part, &'a [u8]), Halt>
    ensures read { IsExact (λ x. (x.0, x.1.now)) halt_cause result (part_here (names_in names.now) bytes.now) }
    ensures bound { IfOk result (λ x. IsBytePart x.0) }
{
    if is_next(Word::R, bytes) {
        let (item, rest) = assignment_here(bytes)?;
        return Ok((Part::Item(item), rest));
    }
    if is_next(Word::A, bytes) {
        let (item, rest) = store_here(bytes)?;
        return Ok((Part::Item(item), rest));
    }
    if is_next(Word::Print, bytes) {
        let (item, rest) = print(after_run(Class::Letter, bytes))?;
        return Ok((Part::Item(item), rest));
    }
    if is_next(Word::If, bytes) {
        return test(after_run(Class::Letter, bytes));
    }
    let (leaf, rest) = leaf_here(names, bytes)?;
    Ok((Part::Leaf(leaf), rest))
}
