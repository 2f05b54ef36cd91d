//! What the programs have in common: the words of the command line, files, objects and inputs as they find them,
//! streams as they see them, and how a line is reported at the end.
#![tactic(auto)]

mod file;
mod line;
mod loading;
mod sending;
mod stop;
mod telling;
mod words;

pub use file::{FileError, read_whole};
pub use line::send_line;
pub use loading::{load, take_numbers};
pub use sending::send_text;
pub use stop::{Stop, fault_at};
pub use telling::tell;
pub use words::read_words;
