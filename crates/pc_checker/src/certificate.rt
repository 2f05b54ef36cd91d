//! The certificate that is held against an object: one that is read, or one that is made.
ghost use Rattle.std.specs.Prelude.{◌≡◌, ◌≤◌, length, true, false, MatchResult};
ghost use Rattle.pc_cert.specs.CertificateText.{IsCertificate, certificate_text};
ghost use Rattle.pc_command.specs.Requests.{check_request};
ghost use Rattle.pc_object.specs.ObjectText.{IsObject, object_of};
ghost use Rattle.pc_outside.specs.Shelf.{HoldsFile, ReadKeeps};
ghost use Rattle.pc_table.specs.StoredTable.{table_of};
ghost use Rattle.pc_word.specs.MachineLimits.{most_object};
ghost use Rattle.pc_checker.specs.Certificates.{AreWritten, HoldsCertificate, IsTextOf};
ghost use Rattle.pc_checker.specs.Told.{Failure};
ghost use Rattle.pc_checker.specs.models.Steps.{CertificateEnds, FailsToWrite, NoCertificate, RefusesBytes, due_of};

use crate::answer::judge;
use crate::fault::{CertificateFault, CheckerFault, certificate_refusal};
use pc_cert::{Certificate, read, write};
use pc_command::CheckCommand;
use pc_driver::{FileError, read_whole};
use pc_middle::CutProgram;
use pc_object::Object;
use pc_outside::{Shelf, ShelfError};
use pc_proposing::propose;
use pc_word::MOST_OBJECT;
use std::alloc::Global;

/// Checks an object against the regions of a source, by the certificate that the command names, or by one that is made:
/// the text of the rejection, or nothing where the certificate is accepted, which is then written, if it was
/// made. An error says why there is no answer.
pub(crate) fn check_certificate<'a, H: Shelf>(
    alloc: Global,
    command: CheckCommand<'a>,
    cut: &CutProgram,
    object: &Object,
    shelf: &mut H,
) -> Result<Option<Vec<u8>>, CheckerFault<'a>>
    requires { IsObject (object_of object.now) }
    ensures { MatchResult result
        (λ rejection. CertificateEnds (check_request command.entry) cut.now.flow.initial (table_of cut.now.table) (object_of object.now)
        (H.state shelf.old) (H.state shelf.new) (due_of rejection))
        (λ fault. CertificateEnds (check_request command.entry) cut.now.flow.initial (table_of cut.now.table) (object_of object.now)
        (H.state shelf.old) (H.state shelf.new) (Failure fault)) }
{
    if command.make {
        check_made(alloc, command, cut, object, shelf)
    } else {
        check_read(alloc, command, cut, object, shelf)
    }
}

/// Checks an object by the certificate in the file that the command names.
#[tactic(auto, using(crate::proofs::Certificates::reads_due))]
fn check_read<'a, H: Shelf>(
    alloc: Global,
    command: CheckCommand<'a>,
    cut: &CutProgram,
    object: &Object,
    shelf: &mut H,
) -> Result<Option<Vec<u8>>, CheckerFault<'a>>
    requires object { IsObject (object_of object.now) }
    requires read { command.make ≡ false }
    ensures { MatchResult result
        (λ rejection. CertificateEnds (check_request command.entry) cut.now.flow.initial (table_of cut.now.table) (object_of object.now)
        (H.state shelf.old) (H.state shelf.new) (due_of rejection))
        (λ fault. CertificateEnds (check_request command.entry) cut.now.flow.initial (table_of cut.now.table) (object_of object.now)
        (H.state shelf.old) (H.state shelf.new) (Failure fault)) }
{
    match read_certificate(alloc, command.certificate, shelf) {
        Ok(certificate) => match judge(alloc, cut, object, &certificate, command.why) {
            Ok(rejection) => Ok(rejection),
            Err(_) => Err(CheckerFault::NoMemory),
        },
        Err(fault) => Err(fault),
    }
}

/// The certificate in a file. An error says why there is none.
#[tactic(auto, using(crate::proofs::Certificates::certificates_due))]
fn read_certificate<'a, H: Shelf>(
    alloc: Global,
    name: &'a str,
    shelf: &mut H,
) -> Result<Certificate, CheckerFault<'a>>
    ensures certificate { MatchResult result (λ certificate. HoldsCertificate (H.state shelf.old).held name.entry.now certificate.entries)
        (λ fault. NoCertificate name.entry.now (H.state shelf.old) (H.state shelf.new) fault) }
    ensures keeps { ReadKeeps (H.state shelf.old) (H.state shelf.new) }
{
    match read_whole(alloc, name, MOST_OBJECT, shelf) {
        Ok(bytes) => certificate_in(alloc, bytes.as_slice()),
        Err(FileError::Failed) => Err(CheckerFault::ReadFile { name }),
        Err(FileError::TooLong) => Err(CheckerFault::Certificate {
            fault: CertificateFault::TooLong,
        }),
        Err(FileError::Memory) => Err(CheckerFault::NoMemory),
    }
}

/// The certificate that bytes are the text of.
fn certificate_in<'a>(alloc: Global, bytes: &[u8]) -> Result<Certificate, CheckerFault<'a>>
    requires { length bytes.now ≤ most_object }
    ensures { MatchResult result (λ certificate. IsTextOf bytes.now certificate.entries) (λ fault. RefusesBytes bytes.now fault) }
{
    match read(alloc, bytes) {
        Ok(certificate) => Ok(certificate),
        Err(error) => Err(certificate_refusal(error)),
    }
}

/// Checks an object by a certificate that is made for it, and writes the certificate to the file that the command names
/// where it is accepted.
#[tactic(auto, using(crate::proofs::Certificates::makes_due))]
fn check_made<'a, H: Shelf>(
    alloc: Global,
    command: CheckCommand<'a>,
    cut: &CutProgram,
    object: &Object,
    shelf: &mut H,
) -> Result<Option<Vec<u8>>, CheckerFault<'a>>
    requires object { IsObject (object_of object.now) }
    requires made { command.make ≡ true }
    ensures { MatchResult result
        (λ rejection. CertificateEnds (check_request command.entry) cut.now.flow.initial (table_of cut.now.table) (object_of object.now)
        (H.state shelf.old) (H.state shelf.new) (due_of rejection))
        (λ fault. CertificateEnds (check_request command.entry) cut.now.flow.initial (table_of cut.now.table) (object_of object.now)
        (H.state shelf.old) (H.state shelf.new) (Failure fault)) }
{
    match propose(alloc, &cut.table, object) {
        Ok(certificate) => check_proposed(alloc, command, cut, object, &certificate, shelf),
        Err(_) => Err(CheckerFault::NoMemory),
    }
}

/// Checks an object by a certificate that may be written, and writes it where it is accepted.
#[tactic(auto, using(crate::proofs::Certificates::makes_due))]
fn check_proposed<'a, H: Shelf>(
    alloc: Global,
    command: CheckCommand<'a>,
    cut: &CutProgram,
    object: &Object,
    certificate: &Certificate,
    shelf: &mut H,
) -> Result<Option<Vec<u8>>, CheckerFault<'a>>
    requires object { IsObject (object_of object.now) }
    requires made { command.make ≡ true }
    requires certificate { IsCertificate certificate.now.entries }
    ensures { MatchResult result
        (λ rejection. CertificateEnds (check_request command.entry) cut.now.flow.initial (table_of cut.now.table) (object_of object.now)
        (H.state shelf.old) (H.state shelf.new) (due_of rejection))
        (λ fault. CertificateEnds (check_request command.entry) cut.now.flow.initial (table_of cut.now.table) (object_of object.now)
        (H.state shelf.old) (H.state shelf.new) (Failure fault)) }
{
    match judge(alloc, cut, object, certificate, command.why) {
        Ok(None) => match write_certificate(alloc, command.certificate, certificate, shelf) {
            Ok(()) => Ok(None),
            Err(fault) => Err(fault),
        },
        Ok(Some(text)) => Ok(Some(text)),
        Err(_) => Err(CheckerFault::NoMemory),
    }
}

/// Writes a certificate to a file.
#[tactic(auto, using(crate::proofs::Certificates::writes_due))]
fn write_certificate<'a, H: Shelf>(
    alloc: Global,
    name: &'a str,
    certificate: &Certificate,
    shelf: &mut H,
) -> Result<(), CheckerFault<'a>>
    requires { IsCertificate certificate.now.entries }
    ensures { MatchResult result
        (λ _. AreWritten certificate.now.entries × HoldsFile (H.state shelf.old).held (H.state shelf.new).held name.entry.now (certificate_text certificate.now.entries))
        (λ fault. FailsToWrite name.entry.now (H.state shelf.old) (H.state shelf.new) fault) }
{
    match write(alloc, certificate) {
        Ok(bytes) => write_bytes(alloc, name, bytes.as_slice(), shelf),
        Err(_) => Err(CheckerFault::NoMemory),
    }
}

/// Writes bytes to a file.
#[tactic(auto, using(crate::proofs::Certificates::writes_due))]
fn write_bytes<'a, H: Shelf>(
    alloc: Global,
    name: &'a str,
    bytes: &[u8],
    shelf: &mut H,
) -> Result<(), CheckerFault<'a>>
    ensures { MatchResult result (λ _. HoldsFile (H.state shelf.old).held (H.state shelf.new).held name.entry.now bytes.now)
        (λ fault. FailsToWrite name.entry.now (H.state shelf.old) (H.state shelf.new) fault) }
{
    match shelf.write_file(alloc, name, bytes) {
        Ok(()) => Ok(()),
        Err(ShelfError::Failed) => Err(CheckerFault::WriteFile { name }),
        Err(ShelfError::Memory) => Err(CheckerFault::NoMemory),
    }
}
