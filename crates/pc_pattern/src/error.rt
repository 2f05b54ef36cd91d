//! Why no automaton was found.
ghost use Rattle.std.specs.Prelude.{◌≡◌};
ghost use Rattle.pc_pattern.specs.declared.error.SearchError.TheVariants.{Memory};

use crate::member_key::MemberKey;
use pc_word::{OutOfMemory, Seq};
use std::alloc::AllocError;
use thiserror::Error;

/// Keys of members.
pub type KeyList = Seq<MemberKey>;

/// Why no automaton was found.
#[derive(Debug, Drop, Error)]
pub enum SearchError {
    /// Memory ran out.
    #[error("out of memory")]
    Memory,
    /// The search came to windows with these keys, one more than there may be rows.
    #[error("no pattern within the rows")]
    NoPattern { reached: KeyList },
}

impl From<AllocError> for SearchError {
    ghost from_gives = { λ _ e. e ≡ Memory };

    fn from(_error: AllocError) -> SearchError {
        SearchError::Memory
    }
}

impl From<OutOfMemory> for SearchError {
    ghost from_gives = { λ _ e. e ≡ Memory };

    fn from(_error: OutOfMemory) -> SearchError {
        SearchError::Memory
    }
}
