//! How many registers rows need.
ghost use Rattle.std.specs.Prelude.{◌≡◌, nat_lt};
ghost use Rattle.std.specs.List.{list_all};
ghost use Rattle.pc_machine.specs.Registers.{few_registers, most_registers};
ghost use Rattle.pc_machine.specs.MachineCode.{code_of, row_of, rows_of};
ghost use Rattle.pc_compile.specs.Registers.{operand_below, item_below, row_below, registers_for, fitted};

use pc_machine::{Code, FEW_REGISTERS, MOST_REGISTERS, Tree};
use pc_word::{Item, Operand, RowTree};

/// The code with as many registers as its rows need: the fewer where they name no others, and else the
/// most.
pub(crate) fn fitted(code: Code) -> Code
    ensures { code_of result ≡ fitted (code_of code) }
{
    let Code {
        limits,
        arrays,
        initial,
        rows,
        ..
    } = code;
    let registers = registers_for(rows.as_slice());
    Code {
        limits,
        registers,
        arrays,
        initial,
        rows,
    }
}

/// How many registers rows need.
fn registers_for(rows: &[Tree]) -> u16
    ensures { result ≡ registers_for (rows_of rows.now) }
{
    if are_few(rows) {
        FEW_REGISTERS as u16
    } else {
        MOST_REGISTERS as u16
    }
}

/// Whether rows name the fewer registers alone.
fn are_few(rows: &[Tree]) -> bool
    ensures { result ≡ list_all (row_below few_registers) (rows_of rows.now) }
{
    for row in rows {
        if !row_is_few(row) {
            return false;
        }
    }
    true
}

/// Whether a row names the fewer registers alone.
fn row_is_few(row: &Tree) -> bool
    ensures { result ≡ row_below few_registers (row_of row.now) }
{
    match row {
        RowTree::Step { item, next } => item_is_few(*item) && row_is_few(next),
        RowTree::Test { on, yes, no } => {
            operand_is_few(*on) && (row_is_few(yes) && row_is_few(no))
        }
        RowTree::Leaf { .. } => true,
    }
}

/// Whether an item names the fewer registers alone.
fn item_is_few(item: Item) -> bool
    ensures { result ≡ item_below few_registers item }
{
    match item {
        Item::Bin {
            dest,
            left,
            right,
            ..
        } => is_few(dest) && (operand_is_few(left) && operand_is_few(right)),
        Item::Copy { dest, from } => is_few(dest) && operand_is_few(from),
        Item::Load { dest, index, .. } => is_few(dest) && operand_is_few(index),
        Item::Store { index, value, .. } => operand_is_few(index) && operand_is_few(value),
        Item::Print { value } => operand_is_few(value),
        Item::Read { dest } => is_few(dest),
        Item::More { dest } => is_few(dest),
    }
}

/// Whether an operand names the fewer registers alone.
fn operand_is_few(operand: Operand) -> bool
    ensures { result ≡ operand_below few_registers operand }
{
    match operand {
        Operand::Name(register) => is_few(register),
        Operand::Lit(_) => true,
    }
}

/// Whether a register is one of the fewer.
fn is_few(register: u32) -> bool
    ensures { result ≡ nat_lt register few_registers }
{
    register < FEW_REGISTERS as u32
}
