//! The readers of registers, arrays, literals, operands and operators.

ghost use Rattle.std.specs.Prelude.{◌≡◌, ◌<◌, ◌≤◌, IfOk, bytes_eq};
ghost use Rattle.std.specs.List.{find};
ghost use Rattle.pc_word.specs.Exact.{IsExact};
ghost use Rattle.pc_view.specs.Words.{operator_words};
ghost use Rattle.pc_assembly.specs.models.Causes.{halt_cause};
ghost use Rattle.pc_machine.specs.Registers.{most_registers};
ghost use Rattle.pc_machine.specs.WellFormed.{IsOperand};
ghost use Rattle.pc_assembly.specs.Operands.{register_here, array_here, negative_here, positive_here, literal_here, operand_here, operand_at, operator_of, operator_here};

use crate::bytes::{Class, after_run, cut_run, unblank};
use crate::error::{Expected, Halt, unexpected};
use crate::spelling::Word;
use crate::words::{is_next, number_here, word_here};
use pc_view::operator_words;
use pc_word::{OpCode, Operand};

/// Every operator.
const OPERATORS: [OpCode; 15] = [
    OpCode::Add,
    OpCode::Sub,
    OpCode::Mul,
    OpCode::Div,
    OpCode::Rem,
    OpCode::Shl,
    OpCode::Shr,
    OpCode::And,
    OpCode::Or,
    OpCode::Xor,
    OpCode::Less,
    OpCode::LessEq,
    OpCode::Equal,
    OpCode::Unequal,
    OpCode::Below,
];

/// A register, by its number.
#[tactic(auto, unfolding(crate::specs::Operands::register_here))]
pub fn register_here(bytes: &[u8]) -> Result<(u32, &[u8]), Halt>
    ensures read { IsExact (λ x. (x.0, x.1.now)) halt_cause result (register_here bytes.now) }
    ensures bound { IfOk result (λ x. x.0 < 256) }
{
    let rest = word_here(Expected::Register, Word::R, bytes)?;
    number_here(255, Expected::Register, rest)
}

/// An array, by its number.
#[tactic(auto, unfolding(crate::specs::Operands::array_here))]
pub fn array_here(bytes: &[u8]) -> Result<(u8, &[u8]), Halt>
    ensures { IsExact (λ x. (x.0, x.1.now)) halt_cause result (array_here bytes.now) }
{
    let rest = word_here(Expected::Array, Word::A, bytes)?;
    let (number, rest) = number_here(255, Expected::Array, rest)?;
    Ok((number as u8, rest))
}

/// What a literal's digits spell after `-`.
#[tactic(auto, unfolding(crate::specs::Operands::negative_here))]
fn negative_here(expected: Expected, bytes: &[u8]) -> Result<(i32, &[u8]), Halt>
    ensures { IsExact (λ x. (x.0, x.1.now)) halt_cause result (negative_here expected bytes.now) }
{
    let (number, rest) = number_here(0x8000_0000, expected, bytes)?;
    Ok(((0 - i64::from(number)) as i32, rest))
}

/// What a literal's digits spell.
#[tactic(auto, unfolding(crate::specs::Operands::positive_here))]
fn positive_here(expected: Expected, bytes: &[u8]) -> Result<(i32, &[u8]), Halt>
    ensures { IsExact (λ x. (x.0, x.1.now)) halt_cause result (positive_here expected bytes.now) }
{
    let (number, rest) = number_here(0x7fff_ffff, expected, bytes)?;
    Ok((number as i32, rest))
}

/// A word, in decimal digits, with `-` before them where it is negative.
#[tactic(auto, unfolding(crate::specs::Operands::literal_here))]
pub fn literal_here(expected: Expected, bytes: &[u8]) -> Result<(i32, &[u8]), Halt>
    ensures { IsExact (λ x. (x.0, x.1.now)) halt_cause result (literal_here expected bytes.now) }
{
    match bytes {
        [b'-', rest @ ..] => negative_here(expected, rest),
        _ => positive_here(expected, bytes),
    }
}

/// A register or a word.
#[tactic(auto, unfolding(crate::specs::Operands::operand_here))]
pub fn operand_here(bytes: &[u8]) -> Result<(Operand, &[u8]), Halt>
    ensures read { IsExact (λ x. (x.0, x.1.now)) halt_cause result (operand_here bytes.now) }
    ensures bound { IfOk result (λ x. IsOperand most_registers x.0) }
{
    if is_next(Word::R, bytes) {
        let (register, rest) = register_here(bytes)?;
        return Ok((Operand::Name(register), rest));
    }
    let (value, rest) = literal_here(Expected::Operand, bytes)?;
    Ok((Operand::Lit(value), rest))
}

/// The same after blanks.
pub fn operand(bytes: &[u8]) -> Result<(Operand, &[u8]), Halt>
    ensures read { IsExact (λ x. (x.0, x.1.now)) halt_cause result (operand_at bytes.now) }
    ensures bound { IfOk result (λ x. IsOperand most_registers x.0) }
{
    operand_here(unblank(bytes))
}

/// The first of these operators that is spelled so.
fn first_spelled(ops: &[OpCode], spelling: &[u8]) -> Option<OpCode>
    ensures { result ≡ find (λ op. bytes_eq (operator_words op) spelling.now) ops.now }
{
    for op in ops {
        if operator_words(*op).as_bytes() == spelling {
            return Some(*op);
        }
    }
    None
}

/// The operator that is spelled so.
#[tactic(auto, unfolding(crate::specs::Operands::operator_of))]
fn operator_of(spelling: &[u8]) -> Option<OpCode>
    ensures { result ≡ operator_of spelling.now }
{
    first_spelled(&OPERATORS, spelling)
}

/// An operator.
#[tactic(auto, unfolding(crate::specs::Operands::operator_here))]
pub fn operator_here(bytes: &[u8]) -> Result<(OpCode, &[u8]), Halt>
    ensures { IsExact (λ x. (x.0, x.1.now)) halt_cause result (operator_here bytes.now) }
{
    if is_next(Word::Below, bytes) {
        return Ok((OpCode::Below, after_run(Class::Letter, bytes)));
    }
    let (spelling, rest) = cut_run(Class::Sign, bytes);
    match operator_of(spelling) {
        Some(op) => Ok((op, rest)),
        None => Err(unexpected(bytes, Expected::Operator)),
    }
}
