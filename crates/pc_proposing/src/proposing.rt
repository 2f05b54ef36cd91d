//! What is proposed for an object.
ghost use Rattle.std.specs.Prelude.{◌≡◌, true, IfOk, IfSome};
ghost use Rattle.pc_word.specs.Ranges.{AreLimits};
ghost use Rattle.pc_cert.specs.CertificateText.{IsCertificate};
ghost use Rattle.pc_proposing.specs.models.Drafts.{IsDraft};
ghost use Rattle.pc_proposing.specs.models.Leaving.{AllLeft};

use crate::arriving::arrive_at_start;
use crate::drafts::{Draft, add_entry, no_entries};
use crate::following::Care;
use crate::going::go_on;
use crate::learning::learn;
use crate::liveness::live_registers;
use crate::ranks::ranks_of;
use crate::registers::RegisterSet;
use crate::stands::{Setting, Stand, Stands};
use pc_cert::{Certificate, Entry, EntryList, FactList, StepList};
use pc_machine::Code;
use pc_object::{Note, Object};
use pc_table::RegionTable;
use pc_word::{Limits, MOST_MEM, MOST_OPS, MOST_TESTS, OutOfMemory};
use std::alloc::{AllocError, Global};

/// How often stands are gone on from, for each row.
const MOST_TURNS: usize = 64;

/// How often the rows are gone through at most, each time with a region that is entered earlier.
const MOST_LESSONS: u32 = 8;

/// To how many iterations the windows of pipelined loops are unwound, in the order in which it is tried.
const NUMBERS: [u8; 4] = [0, 4, 8, 2];

/// How carefully equal items are told apart, in the order in which it is tried.
const CARES: [Care; 3] = [Care::Matters, Care::InOrder, Care::First];

/// For each loop whether it is pipelined, by the notes.
fn pipelined(alloc: Global, table: &RegionTable, notes: &[Note]) -> Result<Vec<bool>, AllocError> {
    let loops = table.loops.as_slice();
    let mut found = vec![in alloc; false; loops.len()]?;
    let mut next = 0usize;
    for at in 0..loops.len() {
        if let Some(note) = notes.get(next) {
            if note.line == loops[at].line {
                found[at] = note.choice == 0;
                next += 1;
            }
        }
    }
    Ok(found)
}

/// The first stand that waits.
fn first_waiting(stands: &[Stand]) -> Option<usize> {
    for at in 0..stands.len() {
        if stands[at].waits {
            return Some(at);
        }
    }
    None
}

/// Goes on from each stand that waits, until none does. Says whether it came so far.
fn go_through(alloc: Global, setting: &Setting, stands: &mut Stands) -> Result<bool, OutOfMemory>
    requires { AllLeft stands.old }
{
    if !arrive_at_start(alloc, setting, stands)? {
        return Ok(false);
    }
    let most = setting.code.rows.len().saturating_mul(MOST_TURNS);
    for _ in 0..most {
        let Some(number) = first_waiting(stands.all.as_slice()) else {
            return Ok(true);
        };
        if !go_on(alloc, setting, stands, number)? {
            return Ok(false);
        }
    }
    Ok(false)
}

/// The entry of a stand with this rank.
fn entry_of(alloc: Global, stand: &Stand, rank: u32) -> Result<Entry, AllocError> {
    let facts = FactList::from_slice(alloc, stand.facts.as_slice())?;
    let steps = StepList::from_slice(alloc, stand.steps.as_slice())?;
    Ok(Entry {
        row: stand.row,
        rank,
        facts,
        opening: stand.opening,
        steps,
    })
}

/// The entries of the stands, if they may be written.
fn entries_of(alloc: Global, stands: &[Stand]) -> Result<Option<Draft>, AllocError>
    ensures { IfOk result (λ draft. IfSome draft IsDraft) }
{
    let ranks = ranks_of(alloc, stands)?;
    let mut draft = no_entries(alloc);
    for at in 0..stands.len() {
        let rank = match ranks.get(at) {
            None => 0,
            Some(rank) => *rank,
        };
        let entry = entry_of(alloc, &stands[at], rank)?;
        if !add_entry(&mut draft, entry)? {
            return Ok(None);
        }
    }
    Ok(Some(draft))
}

/// No stands, for so many rows.
fn no_stands(alloc: Global, rows: usize) -> Result<Stands, AllocError>
    ensures { IfOk result AllLeft }
{
    Ok(Stands {
        all: Vec::new(alloc),
        lefts: Vec::new(alloc),
        of_row: vec![in alloc; None; rows]?,
        current: None,
        missed: None,
    })
}

/// The certificate of a code; or the stands, where some row cannot be gone on from, or the entries are too many to be
/// written.
#[tactic(auto, using(crate::proofs::Writable::certificates))]
fn proposed(alloc: Global, setting: &Setting) -> Result<Result<Certificate, Stands>, OutOfMemory>
    ensures { IfOk result (λ outcome. IfOk outcome (λ it. IsCertificate it.entries)) }
{
    let mut stands = no_stands(alloc, setting.code.rows.len())?;
    if !go_through(alloc, setting, &mut stands)? {
        return Ok(Err(stands));
    }
    match entries_of(alloc, stands.all.as_slice())? {
        None => Ok(Err(stands)),
        Some(Draft { entries, .. }) => Ok(Ok(Certificate { entries })),
    }
}

/// The certificate of a code, where windows of pipelined loops are unwound to a number of iterations; `None` where none
/// is found.
fn proposed_by<'a>(
    alloc: Global,
    table: &'a RegionTable,
    code: &'a Code,
    live: &'a [RegisterSet],
    pipelined: &'a [bool],
    care: Care,
    number: u8,
) -> Result<Option<Certificate>, OutOfMemory>
    requires limits { AreLimits code.now.limits }
    ensures { IfOk result (λ certificate. IfSome certificate (λ it. IsCertificate it.entries)) }
{
    let mut early = vec![in alloc; false; code.rows.len()]?;
    let mut before = no_stands(alloc, 0)?;
    for _ in 0..MOST_LESSONS {
        let setting = Setting {
            table,
            code,
            live,
            pipelined,
            early: early.as_slice(),
            before: &before,
            care,
            number,
        };
        match proposed(alloc, &setting)? {
            Ok(certificate) => return Ok(Some(certificate)),
            Err(stands) => {
                if !learn(&stands, &mut early) {
                    return Ok(None);
                }
                before = stands;
            }
        }
    }
    Ok(None)
}

/// Whether limits are those of a machine.
fn are_limits(limits: Limits) -> bool
    ensures { result ≡ true → AreLimits limits }
{
    if limits.ops < 1 || limits.ops > MOST_OPS {
        return false;
    }
    if limits.tests < 1 || limits.tests > MOST_TESTS {
        return false;
    }
    limits.mem >= 1 && limits.mem <= MOST_MEM
}

/// A certificate for the code of an object, from the table of regions that it is to do. It has no entries where none is
/// found. Nothing is claimed of it but that it can be written; a checker decides.
///
/// The rows are gone through as they are reached, each at most 64 times, and so at most three times over. For each it
/// takes time in proportion to its items, times those of its window and to what holds where it begins.
#[tactic(auto, using(crate::proofs::Writable::certificates))]
pub fn propose(
    alloc: Global,
    table: &RegionTable,
    object: &Object,
) -> Result<Certificate, OutOfMemory>
    // It can be written.
    ensures { IfOk result (λ certificate. IsCertificate certificate.entries) }
{
    let code = &object.code;
    if !are_limits(code.limits) {
        return Ok(Certificate {
            entries: EntryList::new(alloc),
        });
    }
    let live = live_registers(alloc, code.rows.as_slice())?;
    let pipelined = pipelined(alloc, table, object.notes.as_slice())?;
    for care in CARES {
        for number in NUMBERS {
            let certificate = proposed_by(
                alloc,
                table,
                code,
                live.as_slice(),
                pipelined.as_slice(),
                care,
                number,
            )?;
            if let Some(certificate) = certificate {
                return Ok(certificate);
            }
        }
    }
    Ok(Certificate {
        entries: EntryList::new(alloc),
    })
}
