//! Parallel copies: moves between registers that are done at once, as rows of copies.
#![tactic(auto)]

mod arranging;
mod error;
mod follow;
mod laws;
mod moves;
mod packing;
mod place;

pub use arranging::arrange;
pub use error::CopyError;
pub use laws::law_of_copies;
pub use moves::{CopyRow, CopyRows, Move};
