//! JSON of whole numbers, texts, lists and objects: what such a value is, and its text, which is one line.
#![tactic(auto)]

mod value;

pub use value::{limits_value, line_text, optional_value, put_count};
