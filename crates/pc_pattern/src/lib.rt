//! The automaton of a region: a search opens and unwinds its window, fills and cuts it, and brings on
//! what is left at each leaf, until each window leads only to windows that were met, but for names,
//! form variables and a shift of tags.
#![tactic(auto)]

mod error;
mod laws;
mod leading;
mod member_key;
mod pool;
mod recorder;
mod renaming;
mod searching;
mod seen;

pub use error::{KeyList, SearchError};
pub use laws::{laws_of_patterns, laws_of_searches};
pub use member_key::MemberKey;
pub use recorder::{Recorder, Unrecorded};
pub use searching::{search, search_with};
