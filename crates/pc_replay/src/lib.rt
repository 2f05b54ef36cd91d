//! Filling, replayed by single moves.
#![tactic(auto)]

mod bounds;
mod error;
mod locating;
mod raising;
mod replaying;
mod twins;

pub use error::ReplayError;
pub use replaying::replay;
