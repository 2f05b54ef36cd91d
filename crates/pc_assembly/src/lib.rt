//! A listing read back: the rows of an object as text, as `pview` writes them or as they are written by hand.
#![tactic(auto)]

mod bytes;
mod draft;
mod error;
mod header;
mod items;
mod laws;
mod limits;
mod line;
mod lines;
mod listing;
mod names;
mod notes;
mod operands;
mod part;
mod parts;
mod pushing;
mod spelling;
mod text;
mod words;

pub use error::{Expected, ListingError, Place};
pub use laws::laws_of_reading;
pub use listing::read_listing;
pub use spelling::{Mark, Word};
