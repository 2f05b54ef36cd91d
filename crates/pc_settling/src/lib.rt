//! What is left of a window at a leaf of a row: it is settled, an entry of a certificate begins with it,
//! and it is held against a claim.
#![tactic(auto)]

mod arriving;
mod beginning;
mod ends;
mod entering;
mod entry_facts;
mod going_on;
mod laws;
mod remaining;
mod room;
mod settling;
mod sources;
mod start;

pub use arriving::arrives;
pub use beginning::begin;
pub use ends::ends_alike;
pub use entry_facts::facts_of_entry;
pub use going_on::progress;
pub use laws::{
    laws_of_arriving, laws_of_beginning, laws_of_facts, laws_of_leaves, laws_of_settling,
};
pub use remaining::{Begun, Remaining};
pub use settling::settle;
pub use start::facts_at_start;
