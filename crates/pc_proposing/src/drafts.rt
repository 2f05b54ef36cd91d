//! Entries that may be written.
ghost use Rattle.std.specs.Prelude.{◌≡◌, ◌≤◌, ◌^◌, true, length, OnOk};
ghost use Rattle.pc_cert.specs.CertificateText.{entry_text, IsEntry};
ghost use Rattle.pc_proposing.specs.models.Drafts.{IsDraft};

use pc_cert::{Entry, EntryList};
use pc_word::MOST_OBJECT;
use std::alloc::{AllocError, Global};

/// Entries, and how many bytes their certificate has at most.
#[derive(Drop)]
pub(crate) struct Draft {
    pub(crate) entries: EntryList,
    bytes: usize,
}

/// Whether an entry may be written.
fn may_write(entry: &Entry) -> bool
    ensures { result ≡ true → IsEntry entry.now }
{
    if entry.facts.len() > 65535 {
        return false;
    }
    if entry.steps.len() > 65535 {
        return false;
    }
    if entry.opening.window > 8 {
        return false;
    }
    match entry.opening.inside {
        None => true,
        Some(inside) => inside < u16::MAX,
    }
}

/// How many bytes an entry has at most.
#[tactic(auto, using(crate::proofs::Writable::bytes))]
fn most_bytes(entry: &Entry) -> usize
    requires { IsEntry entry.now }
    ensures bytes { length (entry_text entry.now) ≤ result }
    ensures few { result ≤ 2 ^ 21 }
{
    15 + 10 * entry.facts.len() + 7 * entry.steps.len()
}

/// No entries.
#[tactic(auto, using(crate::proofs::Writable::beginning))]
pub(crate) fn no_entries(alloc: Global) -> Draft
    ensures { IsDraft result }
{
    Draft {
        entries: EntryList::new(alloc),
        bytes: 8,
    }
}

/// Adds an entry, if it and all may be written. Says whether it did.
#[tactic(auto, using(crate::proofs::Writable::adding))]
pub(crate) fn add_entry(draft: &mut Draft, entry: Entry) -> Result<bool, AllocError>
    requires { IsDraft draft.old }
    ensures { OnOk result (IsDraft draft.new) }
{
    if !may_write(&entry) {
        return Ok(false);
    }
    let bytes = draft.bytes + most_bytes(&entry);
    if bytes > MOST_OBJECT {
        return Ok(false);
    }
    draft.entries.push(entry)?;
    draft.bytes = bytes;
    Ok(true)
}
