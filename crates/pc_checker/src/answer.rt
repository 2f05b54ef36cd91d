//! What the checker answers of a certificate.
ghost use Rattle.std.specs.Prelude.{IfOk};
ghost use Rattle.pc_cert.specs.CertificateText.{IsCertificate};
ghost use Rattle.pc_object.specs.ObjectText.{IsObject, object_of};
ghost use Rattle.pc_table.specs.StoredTable.{table_of};
ghost use Rattle.pc_checker.specs.models.Steps.{Finds};

use crate::rejection::rejection_text;
use pc_cert::Certificate;
use pc_checking::{CheckError, check};
use pc_middle::CutProgram;
use pc_object::Object;
use pc_word::OutOfMemory;
use std::alloc::Global;

/// The answer to a certificate, and what it was held against.
#[derive(Debug, Drop)]
pub(crate) struct Answer {
    /// The graph and the regions of the source.
    pub(crate) cut: CutProgram,
    /// The text that tells the rejection; nothing where the certificate is accepted.
    pub(crate) rejection: Option<Vec<u8>>,
}

/// Whether a certificate shows that an object does what a source's regions do: nothing is to be told where it does,
/// and else the text that tells the rejection, with the reason where that is asked for.
#[tactic(auto, using(crate::proofs::Answers::findings))]
pub(crate) fn judge(
    alloc: Global,
    cut: &CutProgram,
    object: &Object,
    certificate: &Certificate,
    why: bool,
) -> Result<Option<Vec<u8>>, OutOfMemory>
    requires object { IsObject (object_of object.now) }
    requires certificate { IsCertificate certificate.now.entries }
    ensures { IfOk result (λ told. Finds why cut.now.flow.initial (table_of cut.now.table) (object_of object.now).code certificate.now.entries told) }
{
    match check(
        alloc,
        &cut.table,
        cut.flow.initial(),
        &object.code,
        certificate,
    ) {
        Ok(()) => Ok(None),
        Err(CheckError::Rejected { rejection }) => {
            let entries = certificate.entries.as_slice();
            let text = rejection_text(alloc, object, entries, rejection, why)?;
            Ok(Some(text))
        }
        Err(CheckError::Memory) => Err(OutOfMemory::Memory),
    }
}
