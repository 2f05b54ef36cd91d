//! Why the checker comes to no answer.
ghost use Rattle.std.specs.Prelude.{◌≡◌};
ghost use Rattle.pc_checker.specs.Certificates.{told_of_certificate};
ghost use Rattle.pc_checker.specs.Told.{checker_status};
ghost use Rattle.pc_checker.specs.models.Steps.{certificate_refusal};

use pc_cert::CertificateError;
use pc_report::{ObjectFault, SourceFault};

/// Why a certificate's bytes are refused. Offsets are those of bytes, counted from 0.
#[derive(Clone, Copy, Debug, PartialEq, Eq)]
pub enum CertificateFault {
    /// They are more than 16,777,216.
    TooLong,
    /// They do not begin as a certificate does.
    BadMagic,
    /// They end before a field that is due.
    Truncated { offset: u32 },
    /// The tag of a fact's source or operand is unknown.
    BadFact { offset: u32 },
    /// A step or an opening is unknown.
    BadStep { offset: u32 },
    /// A byte follows where they should have ended.
    Trailing { offset: u32 },
}

/// Why the checker comes to no answer. It borrows the name of a file.
#[derive(Clone, Copy, Debug)]
pub enum CheckerFault<'a> {
    /// Memory ran out.
    NoMemory,
    /// The words of the command line are no command.
    Usage,
    /// The file of the source, of the object or of the certificate was not read.
    ReadFile { name: &'a str },
    /// The source is refused.
    Source { fault: SourceFault },
    /// The object is refused.
    Object { fault: ObjectFault },
    /// The certificate's bytes are refused.
    Certificate { fault: CertificateFault },
    /// The file of a certificate that was made was not written.
    WriteFile { name: &'a str },
}

/// The status that tells a fault.
pub(crate) fn checker_status(fault: CheckerFault) -> u8
    ensures { result ≡ checker_status fault.entry }
{
    match fault {
        CheckerFault::NoMemory => 1,
        CheckerFault::Usage => 2,
        CheckerFault::ReadFile { .. } => 3,
        CheckerFault::Source { .. } => 4,
        CheckerFault::Object { .. } => 4,
        CheckerFault::Certificate { .. } => 4,
        CheckerFault::WriteFile { .. } => 5,
    }
}

/// How a refusal of a certificate's bytes is reported.
pub(crate) fn certificate_refusal<'a>(error: CertificateError) -> CheckerFault<'a>
    ensures { result ≡ certificate_refusal (told_of_certificate error) }
{
    let fault = match error {
        CertificateError::BadMagic => CertificateFault::BadMagic,
        CertificateError::Truncated { offset } => CertificateFault::Truncated { offset },
        CertificateError::BadFact { offset } => CertificateFault::BadFact { offset },
        CertificateError::BadStep { offset } => CertificateFault::BadStep { offset },
        CertificateError::Trailing { offset } => CertificateFault::Trailing { offset },
        CertificateError::Memory => return CheckerFault::NoMemory,
    };
    CheckerFault::Certificate { fault }
}
