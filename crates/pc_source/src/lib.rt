//! What a source is, why a text is none, and what it means; and how one is read: from its name to its text, and from
//! the text to its checked program.
#![tactic(auto)]

mod laws;
mod program;
mod refusal;
mod source;

pub use laws::{laws_of_checked_texts, laws_of_sources};
pub use program::{NamedProgram, read_named, read_program};
pub use refusal::Refusal;
pub use source::{SourceError, read_source};
