//! Explanations of innermost loops as a text to be read.
#![tactic(auto)]

mod cycles;
mod drawing;
mod states;
mod text;

pub use text::explanation_text;
