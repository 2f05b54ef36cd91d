//! Which certificates are accepted: how a checker goes through the entries, one after the other, which entry is
//! refused first, and why. A code whose certificate is accepted does what the table of regions does.
#![tactic(auto)]

mod flaw;
mod laws;

pub use flaw::{Flaw, LeafFlaw, Rejection};
pub use laws::{law_of_accepted_codes, law_of_answers};
