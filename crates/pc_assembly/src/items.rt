//! The readers of items. Each begins where its item does, blanks passed over.

ghost use Rattle.std.specs.Prelude.{◌≡◌, ◌<◌, IfOk};
ghost use Rattle.pc_word.specs.Exact.{IsExact};
ghost use Rattle.pc_assembly.specs.models.Causes.{halt_cause};
ghost use Rattle.pc_machine.specs.Registers.{most_registers};
ghost use Rattle.pc_machine.specs.WellFormed.{IsOperand};
ghost use Rattle.pc_object.specs.Numbers.{HasByteRegisters};
ghost use Rattle.pc_assembly.specs.Items.{element_here, call_at, computed_on, computed_here, load_here, source_here, assignment_here, store_here, print_at};

use crate::bytes::{Class, after_run, unblank};
use crate::error::Halt;
use crate::operands::{array_here, operand, operand_here, operator_here, register_here};
use crate::spelling::{Mark, Word};
use crate::words::{is_end, is_next, mark};
use pc_word::{Item, Operand};

/// An element: an array and its index.
#[tactic(auto, unfolding(crate::specs::Items::element_here))]
fn element_here(bytes: &[u8]) -> Result<(u8, Operand, &[u8]), Halt>
    ensures read { IsExact (λ x. (x.0, x.1, x.2.now)) halt_cause result (element_here bytes.now) }
    ensures bound { IfOk result (λ x. IsOperand most_registers x.1) }
{
    let (array, rest) = array_here(bytes)?;
    let rest = mark(Mark::OpenBracket, rest)?;
    let (index, rest) = operand(rest)?;
    let rest = mark(Mark::CloseBracket, rest)?;
    Ok((array, index, rest))
}

/// The `()` of `read()` and `more()`.
#[tactic(auto, unfolding(crate::specs::Items::call_at))]
fn call(bytes: &[u8]) -> Result<&[u8], Halt>
    ensures { IsExact (λ rest. rest.now) halt_cause result (call_at bytes.now) }
{
    let rest = mark(Mark::OpenParenthesis, bytes)?;
    mark(Mark::CloseParenthesis, rest)
}

/// What a register is computed of, after the first operand: nothing more, or an operator and another operand.
#[tactic(auto, unfolding(crate::specs::Items::computed_on))]
fn computed_on(dest: u32, left: Operand, bytes: &[u8]) -> Result<(Item, &[u8]), Halt>
    requires dest { dest < 256 }
    requires left { IsOperand most_registers left }
    ensures read { IsExact (λ x. (x.0, x.1.now)) halt_cause result (computed_on dest left bytes.now) }
    ensures bound { IfOk result (λ x. HasByteRegisters x.0) }
{
    if is_end(bytes) {
        return Ok((Item::Copy { dest, from: left }, bytes));
    }
    let (op, rest) = operator_here(bytes)?;
    let (right, rest) = operand(rest)?;
    let item = Item::Bin {
        op,
        dest,
        left,
        right,
    };
    Ok((item, rest))
}

/// A copy, or an operator on two operands.
#[tactic(auto, unfolding(crate::specs::Items::computed_here))]
fn computed_here(dest: u32, bytes: &[u8]) -> Result<(Item, &[u8]), Halt>
    requires { dest < 256 }
    ensures read { IsExact (λ x. (x.0, x.1.now)) halt_cause result (computed_here dest bytes.now) }
    ensures bound { IfOk result (λ x. HasByteRegisters x.0) }
{
    let (left, rest) = operand_here(bytes)?;
    computed_on(dest, left, unblank(rest))
}

#[tactic(auto, unfolding(crate::specs::Items::load_here))]
fn load_here(dest: u32, bytes: &[u8]) -> Result<(Item, &[u8]), Halt>
    requires { dest < 256 }
    ensures read { IsExact (λ x. (x.0, x.1.now)) halt_cause result (load_here dest bytes.now) }
    ensures bound { IfOk result (λ x. HasByteRegisters x.0) }
{
    let (array, index, rest) = element_here(bytes)?;
    Ok((Item::Load { dest, array, index }, rest))
}

/// What a register is given.
#[tactic(auto, unfolding(crate::specs::Items::source_here))]
fn source_here(dest: u32, bytes: &[u8]) -> Result<(Item, &[u8]), Halt>
    requires { dest < 256 }
    ensures read { IsExact (λ x. (x.0, x.1.now)) halt_cause result (source_here dest bytes.now) }
    ensures bound { IfOk result (λ x. HasByteRegisters x.0) }
{
    if is_next(Word::Read, bytes) {
        let rest = call(after_run(Class::Letter, bytes))?;
        return Ok((Item::Read { dest }, rest));
    }
    if is_next(Word::More, bytes) {
        let rest = call(after_run(Class::Letter, bytes))?;
        return Ok((Item::More { dest }, rest));
    }
    if is_next(Word::A, bytes) {
        return load_here(dest, bytes);
    }
    computed_here(dest, bytes)
}

/// An item that writes a register.
#[tactic(auto, unfolding(crate::specs::Items::assignment_here))]
pub fn assignment_here(bytes: &[u8]) -> Result<(Item, &[u8]), Halt>
    ensures read { IsExact (λ x. (x.0, x.1.now)) halt_cause result (assignment_here bytes.now) }
    ensures bound { IfOk result (λ x. HasByteRegisters x.0) }
{
    let (dest, rest) = register_here(bytes)?;
    let rest = mark(Mark::Equals, rest)?;
    source_here(dest, unblank(rest))
}

#[tactic(auto, unfolding(crate::specs::Items::store_here))]
pub fn store_here(bytes: &[u8]) -> Result<(Item, &[u8]), Halt>
    ensures read { IsExact (λ x. (x.0, x.1.now)) halt_cause result (store_here bytes.now) }
    ensures bound { IfOk result (λ x. HasByteRegisters x.0) }
{
    let (array, index, rest) = element_here(bytes)?;
    let rest = mark(Mark::Equals, rest)?;
    let (value, rest) = operand(rest)?;
    let item = Item::Store {
        array,
        index,
        value,
    };
    Ok((item, rest))
}

/// What stands after `print`.
#[tactic(auto, unfolding(crate::specs::Items::print_at))]
pub fn print(bytes: &[u8]) -> Result<(Item, &[u8]), Halt>
    ensures read { IsExact (λ x. (x.0, x.1.now)) halt_cause result (print_at bytes.now) }
    ensures bound { IfOk result (λ x. HasByteRegisters x.0) }
{
    let rest = mark(Mark::OpenParenthesis, bytes)?;
    let (value, rest) = operand(rest)?;
    let rest = mark(Mark::CloseParenthesis, rest)?;
    Ok((Item::Print { value }, rest))
}
