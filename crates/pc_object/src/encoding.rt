//! An object as bytes.

ghost use Rattle.std.specs.Prelude.{◌≡◌, ◌++◌, ◌<◌, ◌≤◌, ◌^◌, length, All, IfOk, OnOk, FitsSigned};
ghost use Rattle.std.specs.Int.{w32};
ghost use Rattle.std.specs.List.{flat_map};
ghost use Rattle.pc_machine.specs.MachineCode.{row_of, rows_of, code_of};
ghost use Rattle.pc_object.specs.ObjectText.{object_of, IsObject, object_text, header_text, notes_text, row_text, version_of, data_text, storage_text};
ghost use Rattle.pc_object.specs.models.InRange.{IsInRange};
ghost use Rattle.pc_object.specs.Numbers.{RowNumbersFit, NoteFits, HasWords};
ghost use Rattle.pc_word.specs.MachineLimits.{most_arrays};
ghost use Rattle.pc_machine.specs.Registers.{most_registers};

use crate::object::{Note, Object};
use crate::version::{Version, version_for};
use crate::writing::{
    push_data, push_item, push_leaf, push_lengths, push_note, push_operand, push_u16, push_u32,
    push_version,
};
use pc_machine::{Code, Tree};
use pc_word::{OutOfMemory, RowTree, WordList};
use std::alloc::{AllocError, Global};

/// Why an object could not be written.
pub type EncodeError = OutOfMemory;

/// The bytes of an object.
pub fn encode(alloc: Global, object: &Object) -> Result<Vec<u8>, EncodeError>
    requires { IsObject (object_of object.now) }
    ensures text { IfOk result (λ bytes. bytes.items ≡ object_text (object_of object.now)) }
    // An object in memory holds no number that another one could be written for.
    ensures words { OnOk result (HasWords (object_of object.now)) }
{
    let mut out = Vec::new(alloc);
    push_header(&mut out, &object.code)?;
    push_rows(&mut out, object.code.rows.as_slice())?;
    push_notes(&mut out, object.notes.as_slice())?;
    Ok(out)
}

fn push_header(out: &mut Vec<u8>, code: &Code) -> Result<(), AllocError>
    requires arrays { length code.now.arrays ≤ most_arrays }
    requires initial { All (λ words. length words < 2 ^ 32) code.now.initial }
    requires rows { length code.now.rows < 2 ^ 32 }
    ensures text { OnOk result (out.new.items ≡ out.old.items ++ header_text (code_of code.now)) }
    ensures words { OnOk result (All (All (FitsSigned w32)) code.now.initial) }
{
    let limits = code.limits;
    let version = version_for(code.registers, code.initial.as_slice());
    push_version(out, version)?;
    out.extend_from_slice(&[
        limits.ops,
        limits.tests,
        limits.mem,
        code.arrays.len() as u8,
    ])?;
    push_storage(out, version, code)?;
    push_u32(out, code.rows.len() as u32)
}

fn push_storage(out: &mut Vec<u8>, version: Version, code: &Code) -> Result<(), AllocError>
    requires version { version ≡ version_of (code_of code.now) }
    requires initial { All (λ words. length words < 2 ^ 32) code.now.initial }
    ensures words { OnOk result (All (All (FitsSigned w32)) code.now.initial) }
    ensures text { OnOk result (out.new.items ≡ out.old.items ++ storage_text version code.now.registers code.now.arrays code.now.initial) }
{
    match version {
        Version::Ptv1 => push_lengths(out, code.arrays.as_slice()),
        Version::Ptv2 => {
            push_u16(out, code.registers)?;
            push_lengths(out, code.arrays.as_slice())?;
            push_each_data(out, code.initial.as_slice())
        }
    }
}

fn push_each_data(out: &mut Vec<u8>, lists: &[WordList]) -> Result<(), AllocError>
    requires { All (λ words. length words < 2 ^ 32) lists.now }
    ensures text { OnOk result (out.new.items ≡ out.old.items ++ flat_map data_text lists.now) }
    ensures words { OnOk result (All (All (FitsSigned w32)) lists.now) }
{
    for words in lists {
        push_data(out, words.as_slice())?;
    }
    Ok(())
}

fn push_rows(out: &mut Vec<u8>, rows: &[Tree]) -> Result<(), AllocError>
    requires { All (λ tree. IsInRange most_registers most_arrays (2 ^ 32) (row_of tree)) rows.now }
    ensures text { OnOk result (out.new.items ≡ out.old.items ++ flat_map row_text (rows_of rows.now)) }
    ensures words { OnOk result (All (λ tree. RowNumbersFit (row_of tree)) rows.now) }
{
    for row in rows {
        push_row(out, row)?;
    }
    Ok(())
}

#[tactic(auto, using(crate::proofs::Ranges::byte_registers))]
fn push_row(out: &mut Vec<u8>, row: &Tree) -> Result<(), AllocError>
    requires { IsInRange most_registers most_arrays (2 ^ 32) (row_of row.now) }
    ensures text { OnOk result (out.new.items ≡ out.old.items ++ row_text (row_of row.now)) }
    ensures words { OnOk result (RowNumbersFit (row_of row.now)) }
{
    match row {
        RowTree::Step { item, next } => {
            push_item(out, *item)?;
            push_row(out, next)
        }
        RowTree::Test { on, yes, no } => {
            out.push(0x10)?;
            push_operand(out, *on)?;
            push_row(out, yes)?;
            push_row(out, no)
        }
        RowTree::Leaf { leaf } => push_leaf(out, *leaf),
    }
}

fn push_notes(out: &mut Vec<u8>, notes: &[Note]) -> Result<(), AllocError>
    requires { length notes.now ≤ 65535 }
    ensures text { OnOk result (out.new.items ≡ out.old.items ++ notes_text notes.now) }
    ensures words { OnOk result (All NoteFits notes.now) }
{
    push_u16(out, notes.len() as u16)?;
    for note in notes {
        push_note(out, *note)?;
    }
    Ok(())
}
