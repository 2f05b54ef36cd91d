//! Bytes as a certificate.

ghost use Rattle.std.specs.Prelude.{◌≡◌, ◌≤◌, List, length, Result, Ok, IfOk};
ghost use Rattle.pc_word.specs.Exact.{IsExact};
ghost use Rattle.pc_word.specs.MachineLimits.{most_object};
ghost use Rattle.pc_cert.specs.declared.certificate.Entry.{Entry as Listed};
ghost use Rattle.pc_cert.specs.CertificateText.{certificate_text, IsCertificate};
ghost use Rattle.pc_cert.specs.Numbers.{HasNumbers};
ghost use Rattle.pc_cert.specs.Cause.{certificate_cause};
ghost use Rattle.pc_cert.specs.models.HaltCause.{halt_cause};
ghost use Rattle.pc_cert.specs.Reading.{many_at, counted_at, fact_at, step_at, entry_at, end_at, entries_at, certificate_reading, told};

use crate::certificate::{Certificate, Entry, EntryList, FactList, StepList};
use crate::fields::{half, magic, number};
use crate::parts::{fact, opening, step};
use crate::refusal::{CertificateError, Halt, Refusal};
use pc_word::Seq;
use std::alloc::Global;

/// The certificate that the bytes are the text of.
///
/// The bytes are read once, from left to right; the first field that is wrong decides. What
/// [`write`](crate::write) wrote is read as the certificate that it was, where neither call wants memory.
pub fn read(alloc: Global, bytes: &[u8]) -> Result<Certificate, CertificateError>
    requires { length bytes.now ≤ most_object }
    // What is read is a certificate, and the bytes are its text.
    ensures certificate { IfOk result (λ it. IsCertificate it.entries) }
    ensures numbers { IfOk result (λ it. HasNumbers it.entries) }
    ensures text { IfOk result (λ it. bytes.now ≡ certificate_text it.entries) }
    // The text of a certificate is read, and as that certificate.
    ensures only { (entries : List Listed) → IsCertificate entries → HasNumbers entries → bytes.now ≡ certificate_text entries
        → IsExact (λ it. it.entries) certificate_cause result (Ok entries) }
    // Which refusal it is.
    ensures exact { IsExact (λ it. it.entries) certificate_cause result (certificate_reading bytes.now) }
{
    told_certificate(alloc, bytes)
}

/// The certificate that the bytes are, or the refusal by its offset.
#[tactic(auto, unfolding(crate::specs::Reading::certificate_reading))]
fn told_certificate(alloc: Global, bytes: &[u8]) -> Result<Certificate, CertificateError>
    requires { length bytes.now ≤ most_object }
    ensures { IsExact (λ it. it.entries) certificate_cause result (certificate_reading bytes.now) }
{
    match certificate(alloc, bytes) {
        Ok(certificate) => Ok(certificate),
        Err(Halt::Memory) => Err(CertificateError::Memory),
        Err(Halt::Refused(refusal)) => Err(tell(bytes, refusal)),
    }
}

/// A refusal by its offset.
fn tell(bytes: &[u8], refusal: Refusal) -> CertificateError
    requires { length bytes.now ≤ most_object }
    ensures { result ≡ told (length bytes.now) refusal }
{
    let offset = |left: usize| bytes.len().saturating_sub(left) as u32;
    match refusal {
        Refusal::NotMagic => CertificateError::BadMagic,
        Refusal::Short => CertificateError::Truncated { offset: offset(0) },
        Refusal::BadFact { left } => CertificateError::BadFact {
            offset: offset(left),
        },
        Refusal::BadStep { left } => CertificateError::BadStep {
            offset: offset(left),
        },
        Refusal::Longer { left } => CertificateError::Trailing {
            offset: offset(left),
        },
    }
}

#[tactic(auto, unfolding(crate::specs::Reading::entries_at))]
fn certificate(alloc: Global, bytes: &[u8]) -> Result<Certificate, Halt>
    ensures { IsExact (λ it. it.entries) halt_cause result (entries_at bytes.now) }
{
    let rest = magic(b"PTC1", bytes)?;
    let (count, rest) = number(rest)?;
    let (entries, rest) = entries(alloc, count, rest)?;
    end(rest)?;
    Ok(Certificate { entries })
}

fn end(bytes: &[u8]) -> Result<(), Halt>
    ensures { IsExact (λ x. x) halt_cause result (end_at bytes.now) }
{
    match bytes {
        [] => Ok(()),
        _ => Err(Halt::Refused(Refusal::Longer { left: bytes.len() })),
    }
}

fn entries(alloc: Global, count: u32, bytes: &[u8]) -> Result<(EntryList, &[u8]), Halt>
    ensures { IsExact (λ x. (x.0, x.1.now)) halt_cause result (many_at entry_at count bytes.now) }
{
    let mut entries = Vec::new(alloc);
    let mut rest = bytes;
    for _ in 0..count {
        let (entry, after) = entry(alloc, rest)?;
        entries.push(entry)?;
        rest = after;
    }
    Ok((Seq::from_vec(entries), rest))
}

#[tactic(auto, unfolding(crate::specs::Reading::entry_at))]
fn entry(alloc: Global, bytes: &[u8]) -> Result<(Entry, &[u8]), Halt>
    ensures { IsExact (λ x. (x.0, x.1.now)) halt_cause result (entry_at bytes.now) }
{
    let (row, rest) = number(bytes)?;
    let (rank, rest) = number(rest)?;
    let (facts, rest) = facts(alloc, rest)?;
    let (opening, rest) = opening(rest)?;
    let (steps, rest) = steps(alloc, rest)?;
    let entry = Entry {
        row,
        rank,
        facts,
        opening,
        steps,
    };
    Ok((entry, rest))
}

#[tactic(auto, unfolding(crate::specs::Reading::counted_at))]
fn facts(alloc: Global, bytes: &[u8]) -> Result<(FactList, &[u8]), Halt>
    ensures { IsExact (λ x. (x.0, x.1.now)) halt_cause result (counted_at fact_at bytes.now) }
{
    let (count, mut rest) = half(bytes)?;
    let mut facts = Vec::new(alloc);
    for _ in 0..count {
        let (fact, after) = fact(rest)?;
        facts.push(fact)?;
        rest = after;
    }
    Ok((Seq::from_vec(facts), rest))
}

#[tactic(auto, unfolding(crate::specs::Reading::counted_at))]
fn steps(alloc: Global, bytes: &[u8]) -> Result<(StepList, &[u8]), Halt>
    ensures { IsExact (λ x. (x.0, x.1.now)) halt_cause result (counted_at step_at bytes.now) }
{
    let (count, mut rest) = half(bytes)?;
    let mut steps = Vec::new(alloc);
    for _ in 0..count {
        let (step, after) = step(rest)?;
        steps.push(step)?;
        rest = after;
    }
    Ok((Seq::from_vec(steps), rest))
}
