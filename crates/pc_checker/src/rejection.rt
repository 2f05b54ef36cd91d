//! The text that tells a rejection.
ghost use Rattle.std.specs.Prelude.{◌≡◌, ◌++◌, IfOk, OnOk, string_bytes, if◌then◌else◌, []};
ghost use Rattle.pc_object.specs.ObjectText.{IsObject, object_of};
ghost use Rattle.pc_checker.specs.RejectionText.{reason_text, rejected_line, rejection_text, row_listing, row_of_entry, row_of_reason, row_words};

use crate::words::FlawWords;
use pc_accepted::{Flaw, Rejection};
use pc_cert::Entry;
use pc_object::Object;
use pc_view::row_text;
use std::alloc::{AllocError, Global};

/// The row of which an entry speaks, if there is an entry with this number.
fn row_of_entry(entries: &[Entry], number: u32) -> Option<u32>
    ensures { result ≡ row_of_entry entries.now number }
{
    match entries.get(number as usize) {
        Some(entry) => Some(entry.row),
        None => None,
    }
}

/// Appends which row it is to a text, if there is one.
fn push_row_words(text: &mut String, row: Option<u32>) -> Result<(), AllocError>
    ensures { OnOk result (string_bytes text.new ≡ string_bytes text.old ++ row_words row) }
{
    match row {
        Some(row) => write!(text, ", row {row}"),
        None => Ok(()),
    }
}

/// The first line of a rejection: which entry is refused, and of which row it speaks.
fn rejected_line(alloc: Global, row: Option<u32>, entry: u32) -> Result<String, AllocError>
    ensures { IfOk result (λ text. string_bytes text ≡ rejected_line row entry) }
{
    let mut text = format!(in alloc; "pcheck: rejected at entry {entry}")?;
    push_row_words(&mut text, row)?;
    text.push_str("\n")?;
    Ok(text)
}

/// The row that a reason speaks of: that of the entry, but the data and the start are those of no row.
fn row_of_reason(flaw: Flaw, row: Option<u32>) -> Option<u32>
    ensures { result ≡ row_of_reason flaw row }
{
    match flaw {
        Flaw::OtherData => None,
        Flaw::Start { .. } => None,
        Flaw::Unreached => row,
        Flaw::NoRow => row,
        Flaw::IllegalStep => row,
        Flaw::OtherRow => row,
        Flaw::Leaf { .. } => row,
    }
}

/// The listing of a row, where there is one.
fn row_listing(alloc: Global, object: &Object, row: Option<u32>) -> Result<Vec<u8>, AllocError>
    requires { IsObject (object_of object.now) }
    ensures { IfOk result (λ text. text.items ≡ row_listing (object_of object.now).code row) }
{
    match row {
        Some(row) => row_text(alloc, object, row),
        None => Ok(Vec::new(alloc)),
    }
}

/// The reason for a rejection in a line, and the listing of the row that it speaks of.
fn reason_text(
    alloc: Global,
    object: &Object,
    row: Option<u32>,
    flaw: Flaw,
) -> Result<Vec<u8>, AllocError>
    requires { IsObject (object_of object.now) }
    ensures { IfOk result (λ text. text.items ≡ reason_text (object_of object.now).code row flaw) }
{
    let words = FlawWords { flaw };
    let line = format!(in alloc; "pcheck: {words}\n")?;
    let listing = row_listing(alloc, object, row_of_reason(flaw, row))?;
    let mut text = line.into_bytes();
    text.extend_from_slice(listing.as_slice())?;
    Ok(text)
}

/// Appends the reason for a rejection to a text, where it is asked for.
fn push_reason(
    alloc: Global,
    text: &mut Vec<u8>,
    object: &Object,
    row: Option<u32>,
    flaw: Flaw,
    asked: bool,
) -> Result<(), AllocError>
    requires { IsObject (object_of object.now) }
    ensures { OnOk result (text.new.items ≡ text.old.items ++ (if asked then reason_text (object_of object.now).code row flaw else [])) }
{
    if !asked {
        return Ok(());
    }
    let reason = reason_text(alloc, object, row, flaw)?;
    text.extend_from_slice(reason.as_slice())
}

/// The text that tells a rejection: which entry is refused and of which row it speaks; and where the reason is asked
/// for, a line with it, and the listing of the row, where the object has it.
pub(crate) fn rejection_text(
    alloc: Global,
    object: &Object,
    entries: &[Entry],
    rejection: Rejection,
    asked: bool,
) -> Result<Vec<u8>, AllocError>
    requires { IsObject (object_of object.now) }
    ensures { IfOk result (λ text. text.items ≡ rejection_text asked (object_of object.now).code entries.now rejection) }
{
    let row = row_of_entry(entries, rejection.entry);
    let line = rejected_line(alloc, row, rejection.entry)?;
    let mut text = line.into_bytes();
    push_reason(alloc, &mut text, object, row, rejection.flaw, asked)?;
    Ok(text)
}
