//! What a run cost, as a text to be read.
#![tactic(auto)]

mod json;
mod laws;
mod lines;
mod ranking;

pub use json::json_text;
pub use laws::laws_of_busiest_rows;
pub use lines::{push_end_words, summary_text};
pub use ranking::{RowCount, busiest};
