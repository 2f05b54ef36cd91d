//! The line that tells a fault.
ghost use Rattle.std.specs.Prelude.{◌≡◌, IfOk, Some};
ghost use Rattle.pc_checker.specs.FaultText.{certificate_fault_line, certificate_fault_text, checker_line};

use crate::fault::{CertificateFault, CheckerFault};
use pc_report::{ReportError, Speaker, ToolFault, fault_text};
use std::alloc::Global;
use std::fmt;

impl fmt::Display for CertificateFault {
    ghost output = { λ fault. Some (certificate_fault_text fault) };

    fn fmt<W: fmt::Write>(&self, f: &mut fmt::Formatter<W>) -> fmt::Result {
        match self {
            CertificateFault::TooLong => f.write_str("longer than 16777216 bytes"),
            CertificateFault::BadMagic => f.write_str("bad magic"),
            CertificateFault::Truncated { offset } => write!(f, "truncated at offset {offset}"),
            CertificateFault::BadFact { offset } => write!(f, "bad fact at offset {offset}"),
            CertificateFault::BadStep { offset } => write!(f, "bad step at offset {offset}"),
            CertificateFault::Trailing { offset } => write!(f, "trailing bytes at offset {offset}"),
        }
    }
}

/// The line that tells why a certificate's bytes are refused, with its line feed.
fn certificate_fault_line(alloc: Global, fault: CertificateFault) -> Result<Vec<u8>, ReportError>
    ensures { IfOk result (λ text. text.items ≡ certificate_fault_line fault) }
{
    let text = format!(in alloc; "pcheck: certificate: {fault}\n")?;
    Ok(text.into_bytes())
}

/// The line that tells a fault, with its line feed.
pub(crate) fn checker_line(alloc: Global, fault: CheckerFault) -> Result<Vec<u8>, ReportError>
    ensures { IfOk result (λ text. text.items ≡ checker_line fault.entry) }
{
    let who = Speaker::Pcheck;
    match fault {
        CheckerFault::NoMemory => fault_text(alloc, &ToolFault::NoMemory { who }),
        CheckerFault::Usage => fault_text(alloc, &ToolFault::Usage { who }),
        CheckerFault::ReadFile { name } => fault_text(alloc, &ToolFault::ReadFile { who, name }),
        CheckerFault::Source { fault } => fault_text(alloc, &ToolFault::Source { who, fault }),
        CheckerFault::Object { fault } => fault_text(alloc, &ToolFault::Object { who, fault }),
        CheckerFault::Certificate { fault } => certificate_fault_line(alloc, fault),
        CheckerFault::WriteFile { name } => fault_text(alloc, &ToolFault::WriteFile { who, name }),
    }
}
