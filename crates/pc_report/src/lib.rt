//! What the programs say: the line that tells a fault, and the report of a compilation.
#![tactic(auto)]

mod display;
mod error;
mod fault;
mod lines;
mod report;
mod words;

pub use error::ReportError;
pub use fault::{InputFault, LineFault, ObjectFault, SourceFault, Speaker, ToolFault};
pub use lines::{fault_text, out_of_memory_line};
pub use report::{PassFact, ReportFacts, push_note_words, report_text};
pub use words::{machine_fault_words, trap_words};
