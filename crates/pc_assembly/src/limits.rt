//! The reader of a listing's first line.

ghost use Rattle.std.specs.Prelude.{◌≡◌, ◌≤◌, ◌+◌, length, IfOk};
ghost use Rattle.pc_word.specs.Exact.{IsExact};
ghost use Rattle.pc_assembly.specs.models.Causes.{halt_cause};
ghost use Rattle.pc_assembly.specs.models.Headers.{header_of};
ghost use Rattle.pc_assembly.specs.Limits.{title_at, memory_at, limit_at, limits_at, length_at, lengths_from, lengths_here, arrays_at, stated_registers, registers_here, header_at};

use crate::bytes::{Class, after_run, unblank};
use crate::error::{Expected, Halt, unexpected};
use crate::spelling::{Mark, Word};
use crate::words::{end, is_mark, is_next, mark, number, number_is, word, word_here};
use pc_machine::FEW_REGISTERS;
use pc_word::Limits;
use std::alloc::Global;

/// What the first line of a listing says: the limits of a row, the lengths of arrays, and how many registers there are.
#[derive(Drop)]
pub struct Header {
    pub limits: Limits,
    pub arrays: Vec<u32>,
    pub registers: u16,
}

#[tactic(auto, unfolding(crate::specs::Limits::title_at))]
fn title(bytes: &[u8]) -> Result<&[u8], Halt>
    ensures { IsExact (λ rest. rest.now) halt_cause result (title_at bytes.now) }
{
    let rest = word(Word::Limits, bytes)?;
    let rest = word(Word::Of, rest)?;
    let rest = word(Word::A, rest)?;
    let rest = word(Word::Row, rest)?;
    mark(Mark::Colon, rest)
}

/// The words `loads and stores`.
#[tactic(auto, unfolding(crate::specs::Limits::memory_at))]
pub fn memory(bytes: &[u8]) -> Result<&[u8], Halt>
    ensures { IsExact (λ rest. rest.now) halt_cause result (memory_at bytes.now) }
{
    let rest = word(Word::Loads, bytes)?;
    let rest = word(Word::And, rest)?;
    word(Word::Stores, rest)
}

/// A number of items, tests, or loads and stores.
#[tactic(auto, unfolding(crate::specs::Limits::limit_at))]
fn limit(bytes: &[u8]) -> Result<(u8, &[u8]), Halt>
    ensures { IsExact (λ x. (x.0, x.1.now)) halt_cause result (limit_at bytes.now) }
{
    let (value, rest) = number(255, Expected::Limit, bytes)?;
    Ok((value as u8, rest))
}

#[tactic(auto, unfolding(crate::specs::Limits::limits_at))]
fn limits(bytes: &[u8]) -> Result<(Limits, &[u8]), Halt>
    ensures { IsExact (λ x. (x.0, x.1.now)) halt_cause result (limits_at bytes.now) }
{
    let rest = title(bytes)?;
    let (ops, rest) = limit(rest)?;
    let rest = word(Word::Items, rest)?;
    let rest = mark(Mark::Comma, rest)?;
    let (tests, rest) = limit(rest)?;
    let rest = word(Word::Tests, rest)?;
    let rest = mark(Mark::Comma, rest)?;
    let (mem, rest) = limit(rest)?;
    let rest = memory(rest)?;
    Ok((Limits { ops, tests, mem }, rest))
}

/// The array with this number, by its length.
#[tactic(auto, unfolding(crate::specs::Limits::length_at))]
fn length(due: u32, bytes: &[u8]) -> Result<(u32, &[u8]), Halt>
    ensures { IsExact (λ x. (x.0, x.1.now)) halt_cause result (length_at due bytes.now) }
{
    let rest = word_here(Expected::Array, Word::A, unblank(bytes))?;
    let rest = number_is(255, due, Expected::Array, rest)?;
    let rest = mark(Mark::OpenBracket, rest)?;
    let (length, rest) = number(u32::MAX, Expected::Number, rest)?;
    let rest = mark(Mark::CloseBracket, rest)?;
    Ok((length, rest))
}

/// The lengths of arrays, at most `room`, after those of the arrays before them.
#[tactic(auto, unfolding(crate::specs::Limits::lengths_from))]
fn lengths_from(room: u32, before: Vec<u32>, bytes: &[u8]) -> Result<(Vec<u32>, &[u8]), Halt>
    requires { length before.items + room ≤ 255 }
    ensures read { IsExact (λ x. (x.0.items, x.1.now)) halt_cause result (lengths_from room before.items bytes.now) }
    ensures few { IfOk result (λ x. length x.0.items ≤ 255) }
{
    if room == 0 {
        return Err(unexpected(bytes, Expected::LineEnd));
    }
    let mut lengths = before;
    let (elements, rest) = length(lengths.len() as u32, bytes)?;
    lengths.push(elements)?;
    let rest = unblank(rest);
    if !is_mark(Mark::Comma, rest) {
        return Ok((lengths, rest));
    }
    let rest = mark(Mark::Comma, rest)?;
    lengths_from(room - 1, lengths, rest)
}

#[tactic(auto, unfolding(crate::specs::Limits::lengths_here))]
fn lengths_here(alloc: Global, bytes: &[u8]) -> Result<(Vec<u32>, &[u8]), Halt>
    ensures read { IsExact (λ x. (x.0.items, x.1.now)) halt_cause result (lengths_here bytes.now) }
    ensures few { IfOk result (λ x. length x.0.items ≤ 255) }
{
    let none = Vec::new(alloc);
    if is_next(Word::None, bytes) {
        return Ok((none, after_run(Class::Letter, bytes)));
    }
    lengths_from(255, none, bytes)
}

#[tactic(auto, unfolding(crate::specs::Limits::arrays_at))]
fn arrays(alloc: Global, bytes: &[u8]) -> Result<(Vec<u32>, &[u8]), Halt>
    ensures read { IsExact (λ x. (x.0.items, x.1.now)) halt_cause result (arrays_at bytes.now) }
    ensures few { IfOk result (λ x. length x.0.items ≤ 255) }
{
    let rest = mark(Mark::Semicolon, bytes)?;
    let rest = word(Word::Arrays, rest)?;
    let rest = mark(Mark::Colon, rest)?;
    lengths_here(alloc, unblank(rest))
}

#[tactic(auto, unfolding(crate::specs::Limits::stated_registers))]
fn stated_registers(bytes: &[u8]) -> Result<(u16, &[u8]), Halt>
    ensures { IsExact (λ x. (x.0, x.1.now)) halt_cause result (stated_registers bytes.now) }
{
    let rest = mark(Mark::Semicolon, bytes)?;
    let rest = word(Word::Registers, rest)?;
    let rest = mark(Mark::Colon, rest)?;
    let (registers, rest) = number(65535, Expected::RegisterCount, rest)?;
    Ok((registers as u16, rest))
}

/// The number of registers, or the fewer where none is told.
#[tactic(auto, unfolding(crate::specs::Limits::registers_here))]
fn registers_here(bytes: &[u8]) -> Result<(u16, &[u8]), Halt>
    ensures { IsExact (λ x. (x.0, x.1.now)) halt_cause result (registers_here bytes.now) }
{
    if is_mark(Mark::Semicolon, bytes) {
        return stated_registers(bytes);
    }
    Ok((FEW_REGISTERS as u16, bytes))
}

/// What the first line says.
#[tactic(auto, unfolding(crate::specs::Limits::header_at))]
pub fn header_line(alloc: Global, bytes: &[u8]) -> Result<Header, Halt>
    ensures read { IsExact header_of halt_cause result (header_at bytes.now) }
    ensures few { IfOk result (λ header. length header.arrays.items ≤ 255) }
{
    let (limits, rest) = limits(bytes)?;
    let (arrays, rest) = arrays(alloc, rest)?;
    let (registers, rest) = registers_here(unblank(rest))?;
    end(rest)?;
    Ok(Header {
        limits,
        arrays,
        registers,
    })
}
