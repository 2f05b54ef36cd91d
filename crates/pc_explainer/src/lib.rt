//! The top call of the explainer, which tells what the compiler found for the innermost loops of a source.
#![tactic(auto)]

mod explainer;
mod host;
mod laws;
mod source;

pub use explainer::explain;
pub use host::{run, run_out};
pub use laws::laws_of_the_explainer;
