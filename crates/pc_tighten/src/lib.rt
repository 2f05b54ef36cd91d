//! Rows made compact: items go up as many rows as they can, and rows that are left as a goto alone go.
#![tactic(auto)]

mod draft;
mod error;
mod laws;
mod listing;
mod parents;
mod raising;
mod reasons;
mod removing;
mod tightening;

pub use error::TightenError;
pub use laws::{laws_of_compact_codes, laws_of_removals, laws_of_tightening};
pub use tightening::tighten;
