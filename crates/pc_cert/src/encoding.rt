//! A certificate as bytes.

ghost use Rattle.std.specs.Prelude.{◌≡◌, ◌++◌, ◌∷◌, All, IfOk, OnOk};
ghost use Rattle.std.specs.List.{flat_map};
ghost use Rattle.pc_object.specs.ObjectText.{u16_text};
ghost use Rattle.pc_cert.specs.CertificateText.{source_text, operand_text, fact_text, opening_byte, loop_text, opening_text, step_text, entry_text, certificate_text};
ghost use Rattle.pc_cert.specs.CertificateText.{IsOpening, IsEntry, IsCertificate};
ghost use Rattle.pc_cert.specs.Numbers.{SourceFits, OperandFits, FactFits, StepFits, EntryFits, HasNumbers};

use crate::certificate::{Certificate, Entry, Fact, Opening, Source, Step, WindowOperand};
use pc_object::{push_u16, push_u32, push_word};
use pc_word::OutOfMemory;
use std::alloc::{AllocError, Global};

/// Why a certificate could not be written.
pub type WriteError = OutOfMemory;

/// The bytes of a certificate.
pub fn write(alloc: Global, certificate: &Certificate) -> Result<Vec<u8>, WriteError>
    requires { IsCertificate certificate.now.entries }
    ensures text { IfOk result (λ bytes. bytes.items ≡ certificate_text certificate.now.entries) }
    // Each number of a certificate in memory fits its field.
    ensures numbers { OnOk result (HasNumbers certificate.now.entries) }
{
    let entries = certificate.entries.as_slice();
    let mut out = Vec::new(alloc);
    out.extend_from_slice(b"PTC1")?;
    push_u32(&mut out, entries.len() as u32)?;
    push_entries(&mut out, entries)?;
    Ok(out)
}

fn push_entries(out: &mut Vec<u8>, entries: &[Entry]) -> Result<(), AllocError>
    requires { All IsEntry entries.now }
    ensures text { OnOk result (out.new.items ≡ out.old.items ++ flat_map entry_text entries.now) }
    ensures numbers { OnOk result (All EntryFits entries.now) }
{
    for entry in entries {
        push_entry(out, entry)?;
    }
    Ok(())
}

fn push_entry(out: &mut Vec<u8>, entry: &Entry) -> Result<(), AllocError>
    requires { IsEntry entry.now }
    ensures text { OnOk result (out.new.items ≡ out.old.items ++ entry_text entry.now) }
    ensures numbers { OnOk result (EntryFits entry.now) }
{
    push_u32(out, entry.row)?;
    push_u32(out, entry.rank)?;
    push_u16(out, entry.facts.len() as u16)?;
    push_facts(out, entry.facts.as_slice())?;
    push_opening(out, entry.opening)?;
    push_u16(out, entry.steps.len() as u16)?;
    push_steps(out, entry.steps.as_slice())
}

fn push_facts(out: &mut Vec<u8>, facts: &[Fact]) -> Result<(), AllocError>
    ensures text { OnOk result (out.new.items ≡ out.old.items ++ flat_map fact_text facts.now) }
    ensures numbers { OnOk result (All FactFits facts.now) }
{
    for fact in facts {
        push_fact(out, *fact)?;
    }
    Ok(())
}

fn push_fact(out: &mut Vec<u8>, fact: Fact) -> Result<(), AllocError>
    ensures text { OnOk result (out.new.items ≡ out.old.items ++ fact_text fact) }
    ensures numbers { OnOk result (FactFits fact) }
{
    push_source(out, fact.source)?;
    push_operand(out, fact.operand)
}

fn push_source(out: &mut Vec<u8>, source: Source) -> Result<(), AllocError>
    ensures text { OnOk result (out.new.items ≡ out.old.items ++ source_text source) }
    ensures numbers { SourceFits source }
{
    match source {
        Source::Register(register) => out.extend_from_slice(&[0x00, register]),
        Source::Literal(value) => {
            out.push(0x01)?;
            push_word(out, value)
        }
    }
}

fn push_operand(out: &mut Vec<u8>, operand: WindowOperand) -> Result<(), AllocError>
    ensures text { OnOk result (out.new.items ≡ out.old.items ++ operand_text operand) }
    ensures numbers { OperandFits operand }
{
    match operand {
        WindowOperand::Parameter(parameter) => {
            out.push(0x00)?;
            push_u16(out, parameter)
        }
        WindowOperand::Literal(value) => {
            out.push(0x01)?;
            push_word(out, value)
        }
    }
}

/// The byte that tells whether a stub is entered, and the window.
fn opening_byte(opening: Opening) -> u8
    requires { IsOpening opening }
    ensures { result ≡ opening_byte opening }
{
    if opening.enters {
        16 + opening.window
    } else {
        opening.window
    }
}

fn push_opening(out: &mut Vec<u8>, opening: Opening) -> Result<(), AllocError>
    requires { IsOpening opening }
    ensures { OnOk result (out.new.items ≡ out.old.items ++ opening_text opening) }
{
    out.push(opening_byte(opening))?;
    push_u16(out, opening.inside.unwrap_or(0xFFFF))
}

fn push_steps(out: &mut Vec<u8>, steps: &[Step]) -> Result<(), AllocError>
    ensures text { OnOk result (out.new.items ≡ out.old.items ++ flat_map step_text steps.now) }
    ensures numbers { OnOk result (All StepFits steps.now) }
{
    for step in steps {
        push_step(out, *step)?;
    }
    Ok(())
}

fn push_step(out: &mut Vec<u8>, step: Step) -> Result<(), AllocError>
    ensures text { OnOk result (out.new.items ≡ out.old.items ++ step_text step) }
    ensures numbers { StepFits step }
{
    match step {
        Step::Bring { place } => push_tagged(out, 0x01, place),
        Step::Join {
            branch,
            on_yes,
            on_no,
        } => {
            push_tagged(out, 0x02, branch)?;
            push_u16(out, on_yes)?;
            push_u16(out, on_no)
        }
        Step::Open { leaf } => push_tagged(out, 0x03, leaf),
        Step::Enter { leaf } => push_tagged(out, 0x04, leaf),
        Step::Use { copy, place } => {
            push_tagged(out, 0x05, copy)?;
            push_u16(out, place)
        }
    }
}

/// The tag of a step, and its first field.
fn push_tagged(out: &mut Vec<u8>, tag: u8, number: u16) -> Result<(), AllocError>
    ensures { OnOk result (out.new.items ≡ out.old.items ++ (tag ∷ u16_text number)) }
{
    out.push(tag)?;
    push_u16(out, number)
}
