//! The line that tells a fault.
ghost use Rattle.std.specs.Prelude.{◌≡◌, ◌++◌, IfOk, OnOk};
ghost use Rattle.pc_assembler.specs.FaultText.{assembler_line, expected_text, listing_words, object_words, place_text, quoted, text_fault_line, text_fault_text};

use crate::fault::{AssemblerFault, TextFault};
use pc_assembly::{Expected, Place};
use pc_report::{ObjectFault, ReportError, Speaker, ToolFault, fault_text};
use std::alloc::{AllocError, Global};

/// Appends a word between quotation marks to a text.
fn push_quoted(text: &mut Vec<u8>, word: &[u8]) -> Result<(), AllocError>
    ensures { OnOk result (text.new.items ≡ text.old.items ++ quoted word.now) }
{
    text.extend_from_slice(b"'")?;
    text.extend_from_slice(word)?;
    text.extend_from_slice(b"'")
}

/// Appends what was expected to a text.
fn push_expected(text: &mut Vec<u8>, expected: Expected) -> Result<(), AllocError>
    ensures { OnOk result (text.new.items ≡ text.old.items ++ expected_text expected) }
{
    match expected {
        Expected::Word(word) => push_quoted(text, word.spelling()),
        Expected::Mark(mark) => push_quoted(text, &[mark.byte()]),
        Expected::Limit => text.extend_from_slice(b"a number up to 255"),
        Expected::Number => text.extend_from_slice(b"a number up to 4294967295"),
        Expected::RegisterCount => text.extend_from_slice(b"a number up to 65535"),
        Expected::Register => text.extend_from_slice(b"a register"),
        Expected::Array => text.extend_from_slice(b"an array"),
        Expected::Element => text.extend_from_slice(b"the next element of an array"),
        Expected::Literal => text.extend_from_slice(b"a word"),
        Expected::Operand => text.extend_from_slice(b"a register or a word"),
        Expected::Operator => text.extend_from_slice(b"an operator"),
        Expected::Part => text.extend_from_slice(b"an item, a test or a leaf"),
        Expected::NoTest => text.extend_from_slice(b"an item or a leaf"),
        Expected::TrapKind => text.extend_from_slice(b"a kind of trap"),
        Expected::RowNumber => text.extend_from_slice(b"the number of the next row"),
        Expected::RowOrName => text.extend_from_slice(b"'row' or the name of a row"),
        Expected::RowName => text.extend_from_slice(b"a name that a row has"),
        Expected::NewName => text.extend_from_slice(b"a name that no row before has"),
        Expected::Form => text.extend_from_slice(b"a form of a loop"),
        Expected::Reason => text.extend_from_slice(b"what decided the form"),
        Expected::LineEnd => text.extend_from_slice(b"the end of the line"),
        Expected::TextEnd => text.extend_from_slice(b"the end of the text"),
    }
}

/// Appends that a listing was to go on otherwise to a text.
fn push_complaint(text: &mut Vec<u8>, expected: Expected) -> Result<(), AllocError>
    ensures { OnOk result (text.new.items ≡ text.old.items ++ listing_words expected) }
{
    text.extend_from_slice(b"listing: expected ")?;
    push_expected(text, expected)
}

/// Appends a place to a text.
fn push_place(alloc: Global, text: &mut Vec<u8>, at: Place) -> Result<(), AllocError>
    ensures { OnOk result (text.new.items ≡ text.old.items ++ place_text at) }
{
    let (line, column) = (at.line, at.column);
    let words = format!(in alloc; "line {line}, column {column}")?;
    text.extend_from_slice(words.as_bytes())
}

/// Appends what is wrong with an object to a text.
fn push_object_fault(
    alloc: Global,
    text: &mut Vec<u8>,
    fault: ObjectFault,
) -> Result<(), AllocError>
    ensures { OnOk result (text.new.items ≡ text.old.items ++ object_words fault) }
{
    let words = format!(in alloc; "object: {fault}")?;
    text.extend_from_slice(words.as_bytes())
}

/// Appends why a text is refused to a text.
fn push_text_fault(alloc: Global, text: &mut Vec<u8>, fault: TextFault) -> Result<(), AllocError>
    ensures { OnOk result (text.new.items ≡ text.old.items ++ text_fault_text fault) }
{
    match fault {
        TextFault::TooLong => text.extend_from_slice(b"listing: longer than 4294967296 bytes"),
        TextFault::Unexpected { at, expected } => {
            push_complaint(text, expected)?;
            text.extend_from_slice(b" at ")?;
            push_place(alloc, text, at)
        }
        TextFault::Object { at, fault } => {
            push_object_fault(alloc, text, fault)?;
            text.extend_from_slice(b", from ")?;
            push_place(alloc, text, at)
        }
        TextFault::ObjectTooLong => push_object_fault(alloc, text, ObjectFault::TooLong),
    }
}

/// The line that tells why a text is refused, with its line feed.
fn text_fault_line(alloc: Global, fault: TextFault) -> Result<Vec<u8>, ReportError>
    ensures { IfOk result (λ text. text.items ≡ text_fault_line fault) }
{
    let mut text = Vec::new(alloc);
    text.extend_from_slice(b"pasm: ")?;
    push_text_fault(alloc, &mut text, fault)?;
    text.push(b'\n')?;
    Ok(text)
}

/// The line that tells a fault, with its line feed.
pub(crate) fn assembler_line(alloc: Global, fault: AssemblerFault) -> Result<Vec<u8>, ReportError>
    ensures { IfOk result (λ text. text.items ≡ assembler_line fault.entry) }
{
    let who = Speaker::Pasm;
    match fault {
        AssemblerFault::NoMemory => fault_text(alloc, &ToolFault::NoMemory { who }),
        AssemblerFault::Usage => fault_text(alloc, &ToolFault::Usage { who }),
        AssemblerFault::ReadText { name } => fault_text(alloc, &ToolFault::ReadFile { who, name }),
        AssemblerFault::Text { fault } => text_fault_line(alloc, fault),
        AssemblerFault::WriteObject { name } => fault_text(
            alloc,
            &ToolFault::WriteFile { who, name },
        ),
    }
}
