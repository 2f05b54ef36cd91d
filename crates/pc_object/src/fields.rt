//! The readers of single fields. Each takes the bytes that are left, and gives a value and the
//! bytes after it.

ghost use Rattle.std.specs.Prelude.{◌≡◌, ◌<◌, ◌≤◌, length, Result, Ok, Err, IfOk};
ghost use Rattle.std.specs.Int.{w16, w32};
ghost use Rattle.pc_machine.specs.Checks.{above_of};
ghost use Rattle.pc_word.specs.Exact.{IsExact};
ghost use Rattle.pc_object.specs.models.HaltCause.{halt_cause};
ghost use Rattle.pc_object.specs.Reading.{at_field, byte_at, number_at, word_at, limit_at, limits_at, array_count_at, row_count_at, operator_at};
ghost use Rattle.pc_object.specs.Reading.{trap_at, register_at, dest_at, array_at, operand_at, tag_at, choice_at};
ghost use Rattle.pc_machine.specs.Registers.{most_registers};

use crate::refusal::{Halt, Refusal};
use crate::tag::{Tag, operator_of_byte, tag_of, trap_of};
use byteorder::{BigEndian, ByteOrder};
use pc_machine::{Bounds, Flaw, Path, array_count, limit, row_count};
use pc_word::{Limits, MOST_MEM, MOST_OPS, MOST_TESTS, OpCode, Operand, TrapKind};

/// The flaw of the field that begins where `bytes` do.
pub fn flawed(bytes: &[u8], flaw: Flaw) -> Halt
    ensures { result ≡ Halt.Refused (Refusal.Flawed (length bytes.now) flaw) }
{
    Halt::Refused(Refusal::Flawed {
        left: bytes.len(),
        flaw,
    })
}

/// What a check answers of the field that begins where `bytes` do.
pub fn at_field<T>(bytes: &[u8], answer: Result<T, Flaw>) -> Result<T, Halt>
    ensures { IsExact (λ x. x) halt_cause result (at_field bytes.now answer) }
{
    match answer {
        Ok(value) => Ok(value),
        Err(flaw) => Err(flawed(bytes, flaw)),
    }
}

pub fn byte(bytes: &[u8]) -> Result<(u8, &[u8]), Halt>
    ensures { IsExact (λ x. (x.0, x.1.now)) halt_cause result (byte_at bytes.now) }
{
    match bytes {
        [] => Err(Halt::Refused(Refusal::Short)),
        [first, rest @ ..] => Ok((*first, rest)),
    }
}

pub fn half(bytes: &[u8]) -> Result<(u16, &[u8]), Halt>
    ensures { IsExact (λ x. (x.0, x.1.now)) halt_cause result (number_at w16 bytes.now) }
{
    if bytes.len() < 2 {
        return Err(Halt::Refused(Refusal::Short));
    }
    let (field, rest) = bytes.split_at(2);
    Ok((BigEndian::read_u16(field), rest))
}

pub fn number(bytes: &[u8]) -> Result<(u32, &[u8]), Halt>
    ensures { IsExact (λ x. (x.0, x.1.now)) halt_cause result (number_at w32 bytes.now) }
{
    if bytes.len() < 4 {
        return Err(Halt::Refused(Refusal::Short));
    }
    let (field, rest) = bytes.split_at(4);
    Ok((BigEndian::read_u32(field), rest))
}

#[tactic(auto, unfolding(crate::specs::Reading::word_at))]
pub fn word(bytes: &[u8]) -> Result<(i32, &[u8]), Halt>
    ensures { IsExact (λ x. (x.0, x.1.now)) halt_cause result (word_at bytes.now) }
{
    let (number, rest) = number(bytes)?;
    Ok((number.cast_signed(), rest))
}

#[tactic(auto, unfolding(crate::specs::Reading::limit_at))]
fn limit_of(most: u8, bytes: &[u8]) -> Result<(u8, &[u8]), Halt>
    ensures { IsExact (λ x. (x.0, x.1.now)) halt_cause result (limit_at most bytes.now) }
{
    let (value, rest) = byte(bytes)?;
    at_field(bytes, limit(most, value))?;
    Ok((value, rest))
}

#[tactic(auto, unfolding(crate::specs::Reading::limits_at))]
pub fn limits(bytes: &[u8]) -> Result<(Limits, &[u8]), Halt>
    ensures { IsExact (λ x. (x.0, x.1.now)) halt_cause result (limits_at bytes.now) }
{
    let (ops, rest) = limit_of(MOST_OPS, bytes)?;
    let (tests, rest) = limit_of(MOST_TESTS, rest)?;
    let (mem, rest) = limit_of(MOST_MEM, rest)?;
    Ok((Limits { ops, tests, mem }, rest))
}

#[tactic(auto, unfolding(crate::specs::Reading::array_count_at))]
pub fn array_count_of(bytes: &[u8]) -> Result<(u8, &[u8]), Halt>
    ensures { IsExact (λ x. (x.0, x.1.now)) halt_cause result (array_count_at bytes.now) }
{
    let (count, rest) = byte(bytes)?;
    at_field(bytes, array_count(count as usize))?;
    Ok((count, rest))
}

#[tactic(auto, unfolding(crate::specs::Reading::row_count_at))]
pub fn row_count_of(bytes: &[u8]) -> Result<(u32, &[u8]), Halt>
    ensures { IsExact (λ x. (x.0, x.1.now)) halt_cause result (row_count_at bytes.now) }
{
    let (count, rest) = number(bytes)?;
    at_field(bytes, row_count(count as usize))?;
    Ok((count, rest))
}

#[tactic(auto, unfolding(crate::specs::Reading::operator_at))]
pub fn operator(bytes: &[u8]) -> Result<(OpCode, &[u8]), Halt>
    ensures { IsExact (λ x. (x.0, x.1.now)) halt_cause result (operator_at bytes.now) }
{
    let (byte, rest) = byte(bytes)?;
    let Some(op) = operator_of_byte(byte) else {
        return Err(flawed(bytes, Flaw::Operator));
    };
    Ok((op, rest))
}

#[tactic(auto, unfolding(crate::specs::Reading::trap_at))]
pub fn trap_kind(bytes: &[u8]) -> Result<(TrapKind, &[u8]), Halt>
    ensures { IsExact (λ x. (x.0, x.1.now)) halt_cause result (trap_at bytes.now) }
{
    let (byte, rest) = byte(bytes)?;
    let Some(kind) = trap_of(byte) else {
        return Err(flawed(bytes, Flaw::Trap));
    };
    Ok((kind, rest))
}

#[tactic(auto, unfolding(crate::specs::Reading::register_at))]
fn register<'a>(bounds: &Bounds, bytes: &'a [u8]) -> Result<(u32, &'a [u8]), Halt>
    ensures { IsExact (λ x. (x.0, x.1.now)) halt_cause result (register_at bounds.now.registers bytes.now) }
{
    let (register, rest) = byte(bytes)?;
    let register = register as u32;
    at_field(bytes, bounds.register(register))?;
    Ok((register, rest))
}

#[tactic(auto, unfolding(crate::specs::Reading::dest_at))]
pub fn dest<'a>(bounds: &Bounds, path: &Path, bytes: &'a [u8]) -> Result<(u32, &'a [u8]), Halt>
    ensures read { IsExact (λ x. (x.0, x.1.now)) halt_cause result (dest_at bounds.now.registers (above_of path.now) bytes.now) }
    // A register is a byte, so the machine has it.
    ensures register { IfOk result (λ x. x.0 < most_registers) }
{
    let (register, rest) = byte(bytes)?;
    let register = register as u32;
    at_field(bytes, bounds.dest(path, register))?;
    Ok((register, rest))
}

#[tactic(auto, unfolding(crate::specs::Reading::array_at))]
pub fn array<'a>(bounds: &Bounds, bytes: &'a [u8]) -> Result<(u8, &'a [u8]), Halt>
    ensures { IsExact (λ x. (x.0, x.1.now)) halt_cause result (array_at bounds.now.arrays bytes.now) }
{
    let (array, rest) = byte(bytes)?;
    at_field(bytes, bounds.array(array))?;
    Ok((array, rest))
}

#[tactic(auto, unfolding(crate::specs::Reading::operand_at))]
pub fn operand<'a>(bounds: &Bounds, bytes: &'a [u8]) -> Result<(Operand, &'a [u8]), Halt>
    ensures { IsExact (λ x. (x.0, x.1.now)) halt_cause result (operand_at bounds.now.registers bytes.now) }
{
    match bytes {
        [] => Err(Halt::Refused(Refusal::Short)),
        [0x00, rest @ ..] => {
            let (register, rest) = register(bounds, rest)?;
            Ok((Operand::Name(register), rest))
        }
        [0x01, rest @ ..] => {
            let (word, rest) = word(rest)?;
            Ok((Operand::Lit(word), rest))
        }
        [_, ..] => Err(flawed(bytes, Flaw::OperandTag)),
    }
}

#[tactic(auto, unfolding(crate::specs::Reading::tag_at))]
pub fn tag(bytes: &[u8]) -> Result<(Tag, &[u8]), Halt>
    ensures { IsExact (λ x. (x.0, x.1.now)) halt_cause result (tag_at bytes.now) }
{
    let (byte, rest) = byte(bytes)?;
    let Some(tag) = tag_of(byte) else {
        return Err(flawed(bytes, Flaw::Tag));
    };
    Ok((tag, rest))
}

#[tactic(auto, unfolding(crate::specs::Reading::choice_at))]
pub fn choice(bytes: &[u8]) -> Result<(u8, &[u8]), Halt>
    ensures { IsExact (λ x. (x.0, x.1.now)) halt_cause result (choice_at bytes.now) }
{
    let (choice, rest) = byte(bytes)?;
    if choice > 7 {
        return Err(flawed(bytes, Flaw::Choice));
    }
    Ok((choice, rest))
}
