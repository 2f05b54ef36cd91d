//! The words of the command line of the programs, read with `clap`.
#![tactic(auto)]

mod arguments;
mod assemble;
mod check;
mod compile;
mod error;
mod explain;
mod laws;
mod number_option;
mod schedule;
mod simulate;
mod source;
mod stat;
mod view;

pub use assemble::{AssembleCommand, assemble_command};
pub use check::{CheckCommand, check_command};
pub use compile::{CompileCommand, compile_command};
pub use error::CommandError;
pub use explain::{ExplainCommand, ExplainMode, explain_command};
pub use laws::{laws_of_matches, laws_of_plain_words, laws_of_ranges};
pub use simulate::{SimulateCommand, simulate_command};
pub use source::SourceName;
pub use stat::{StatCommand, StatMode, stat_command};
pub use view::{ViewCommand, view_command};
