//! The top call of the checker, which says whether a certificate shows that an object means what its source means.
#![tactic(auto)]

mod answer;
mod certificate;
mod checker;
mod fault;
mod host;
mod laws;
mod line;
mod object;
mod rejection;
mod source;
mod telling;
mod verdict;
mod words;

pub use checker::check_tool;
pub use fault::{CertificateFault, CheckerFault};
pub use host::{run, run_out};
pub use laws::laws_of_the_checker;
pub use verdict::Verdict;
