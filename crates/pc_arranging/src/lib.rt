//! The steps of a certificate, done on windows: items and tests are brought into the front by their
//! numbers, items on both sides of a test become one, stubs are opened, and copies are used.
#![tactic(auto)]

mod arranging;
mod exchanging;
mod fronts;
mod laws;
mod naming;
mod numbering;
mod stubs;

pub use arranging::do_steps;
pub use laws::laws_of_arranging;
