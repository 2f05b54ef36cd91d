//! Certificates, which say row by row why a code does what a table of regions does, and their format, PTC1, as bytes.
#![tactic(auto)]

mod certificate;
mod encoding;
mod fields;
mod laws;
mod parts;
mod reading;
mod refusal;

pub use certificate::{
    Certificate, Entry, EntryList, Fact, FactList, Opening, Source, Step, StepList, WindowOperand,
};
pub use encoding::{WriteError, write};
pub use laws::{longer_is_trailing, one_certificate, reads_exactly_texts};
pub use reading::read;
pub use refusal::CertificateError;
