//! The writers of an object's fields. Numbers are big-endian.

ghost use Rattle.std.specs.Prelude.{◌≡◌, ◌++◌, ◌∷◌, [], ◌<◌, ◌^◌, length, All, OnOk, FitsSigned};
ghost use Rattle.std.specs.Int.{w32};
ghost use Rattle.std.specs.List.{flat_map};
ghost use Rattle.pc_machine.specs.Registers.{most_registers};
ghost use Rattle.pc_machine.specs.WellFormed.{IsOperand};
ghost use Rattle.pc_object.specs.ObjectText.{word_text, u16_text, u32_text, version_text, data_text, operator_byte, trap_byte, operand_text, item_text, leaf_text, note_text};
ghost use Rattle.pc_object.specs.Numbers.{OperandFits, ItemNumbersFit, LeafFits, NoteFits, HasByteRegisters};

use crate::object::Note;
use crate::version::Version;
use byteorder::{BigEndian, ByteOrder};
use pc_machine::Leaf;
use pc_word::{Item, OpCode, Operand, TrapKind};
use std::alloc::AllocError;

/// Appends a number of two bytes.
pub fn push_u16(out: &mut Vec<u8>, number: u16) -> Result<(), AllocError>
    ensures { OnOk result (out.new.items ≡ out.old.items ++ u16_text number) }
{
    let mut field = [0; 2];
    BigEndian::write_u16(&mut field, number);
    out.extend_from_slice(&field)
}

/// Appends a number of four bytes.
pub fn push_u32(out: &mut Vec<u8>, number: u32) -> Result<(), AllocError>
    ensures { OnOk result (out.new.items ≡ out.old.items ++ u32_text number) }
{
    let mut field = [0; 4];
    BigEndian::write_u32(&mut field, number);
    out.extend_from_slice(&field)
}

/// Appends a word, in two's complement.
pub fn push_word(out: &mut Vec<u8>, word: i32) -> Result<(), AllocError>
    ensures { OnOk result (out.new.items ≡ out.old.items ++ word_text word) }
{
    push_u32(out, word.cast_unsigned())
}

/// Appends the first four bytes of an object, which tell its version.
pub fn push_version(out: &mut Vec<u8>, version: Version) -> Result<(), AllocError>
    ensures { OnOk result (out.new.items ≡ out.old.items ++ version_text version) }
{
    match version {
        Version::Ptv1 => out.extend_from_slice(b"PTV1"),
        Version::Ptv2 => out.extend_from_slice(b"PTV2"),
    }
}

/// Appends the lengths of arrays.
pub fn push_lengths(out: &mut Vec<u8>, lengths: &[u32]) -> Result<(), AllocError>
    ensures { OnOk result (out.new.items ≡ out.old.items ++ flat_map u32_text lengths.now) }
{
    for length in lengths {
        push_u32(out, *length)?;
    }
    Ok(())
}

/// Appends the words with which an array begins, after their number.
pub fn push_data(out: &mut Vec<u8>, words: &[i32]) -> Result<(), AllocError>
    requires { length words.now < 2 ^ 32 }
    ensures text { OnOk result (out.new.items ≡ out.old.items ++ data_text words.now) }
    ensures words { OnOk result (All (FitsSigned w32) words.now) }
{
    push_u32(out, words.len() as u32)?;
    for word in words {
        push_word(out, *word)?;
    }
    Ok(())
}

/// Appends an operand: the byte of a register after `00`, or a word after `01`.
pub fn push_operand(out: &mut Vec<u8>, operand: Operand) -> Result<(), AllocError>
    requires { IsOperand most_registers operand }
    ensures text { OnOk result (out.new.items ≡ out.old.items ++ operand_text operand) }
    ensures words { OnOk result (OperandFits operand) }
{
    match operand {
        Operand::Name(register) => out.extend_from_slice(&[0x00, register as u8]),
        Operand::Lit(value) => {
            out.push(0x01)?;
            push_word(out, value)
        }
    }
}

/// Two operands after the bytes in front of them.
fn push_operands(
    out: &mut Vec<u8>,
    front: &[u8],
    first: Operand,
    second: Operand,
) -> Result<(), AllocError>
    requires first { IsOperand most_registers first }
    requires second { IsOperand most_registers second }
    ensures text { OnOk result (out.new.items ≡ out.old.items ++ (front.now ++ (operand_text first ++ operand_text second))) }
    ensures first { OnOk result (OperandFits first) }
    ensures second { OnOk result (OperandFits second) }
{
    out.extend_from_slice(front)?;
    push_operand(out, first)?;
    push_operand(out, second)
}

/// Appends an item of a row: its tag and its fields.
pub fn push_item(out: &mut Vec<u8>, item: Item) -> Result<(), AllocError>
    requires { HasByteRegisters item }
    ensures text { OnOk result (out.new.items ≡ out.old.items ++ item_text item) }
    ensures words { OnOk result (ItemNumbersFit item) }
{
    match item {
        Item::Bin {
            op,
            dest,
            left,
            right,
        } => push_operands(out, &[0x20, operator_byte(op), dest as u8], left, right),
        Item::Copy { dest, from } => {
            out.extend_from_slice(&[0x21, dest as u8])?;
            push_operand(out, from)
        }
        Item::Load { dest, array, index } => {
            out.extend_from_slice(&[0x22, dest as u8, array])?;
            push_operand(out, index)
        }
        Item::Store {
            array,
            index,
            value,
        } => push_operands(out, &[0x23, array], index, value),
        Item::Print { value } => {
            out.push(0x24)?;
            push_operand(out, value)
        }
        Item::Read { dest } => out.extend_from_slice(&[0x25, dest as u8]),
        Item::More { dest } => out.extend_from_slice(&[0x26, dest as u8]),
    }
}

/// Appends where a row leads: its tag and its fields.
pub fn push_leaf(out: &mut Vec<u8>, leaf: Leaf) -> Result<(), AllocError>
    ensures text { OnOk result (out.new.items ≡ out.old.items ++ leaf_text leaf) }
    ensures words { OnOk result (LeafFits leaf) }
{
    match leaf {
        Leaf::Goto { row } => {
            out.push(0x01)?;
            push_u32(out, row)
        }
        Leaf::Stop => Ok(out.push(0x02)?),
        Leaf::Trap { kind, line } => {
            out.extend_from_slice(&[0x03, trap_byte(kind)])?;
            push_u32(out, line)
        }
    }
}

/// Appends what an object tells of a loop.
pub fn push_note(out: &mut Vec<u8>, note: Note) -> Result<(), AllocError>
    ensures text { OnOk result (out.new.items ≡ out.old.items ++ note_text note) }
    ensures words { NoteFits note }
{
    out.push(note.choice)?;
    push_u32(out, note.line)?;
    push_u32(out, note.number)?;
    push_u32(out, note.limit)
}

fn operator_byte(op: OpCode) -> u8
    ensures { result ≡ operator_byte op }
{
    match op {
        OpCode::Add => 0x00,
        OpCode::Sub => 0x01,
        OpCode::Mul => 0x02,
        OpCode::Div => 0x03,
        OpCode::Rem => 0x04,
        OpCode::Shl => 0x05,
        OpCode::Shr => 0x06,
        OpCode::And => 0x07,
        OpCode::Or => 0x08,
        OpCode::Xor => 0x09,
        OpCode::Less => 0x0A,
        OpCode::LessEq => 0x0B,
        OpCode::Equal => 0x0C,
        OpCode::Unequal => 0x0D,
        OpCode::Below => 0x0E,
    }
}

fn trap_byte(kind: TrapKind) -> u8
    ensures { result ≡ trap_byte kind }
{
    match kind {
        TrapKind::DivideByZero => 0x00,
        TrapKind::OutOfBounds => 0x01,
        TrapKind::EndOfInput => 0x02,
    }
}
