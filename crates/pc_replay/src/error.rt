//! Why filling was not replayed.
ghost use Rattle.std.specs.Prelude.{◌≡◌};
ghost use Rattle.pc_replay.specs.declared.error.ReplayError.TheVariants.{Memory};
ghost use Rattle.pc_replay.specs.models.Refusal.{refusal_for};

use pc_moveop::MoveError;
use pc_word::OutOfMemory;
use std::alloc::AllocError;
use thiserror::Error;

/// Why filling was not replayed.
#[derive(Clone, Copy, Debug, PartialEq, Eq, Error)]
pub enum ReplayError {
    /// A single move was refused.
    #[error("a move is refused")]
    Refused { why: MoveError },
    /// The window has too many items, tests, names or form variables, or a leaf or place has too high
    /// a number.
    #[error("the window is too large")]
    TooLarge,
    /// What is ready is not behind the front.
    #[error("what is ready was not found")]
    NotFound,
    /// Memory ran out.
    #[error("out of memory")]
    Memory,
}

impl From<AllocError> for ReplayError {
    ghost from_gives = { λ _ e. e ≡ Memory };

    fn from(_error: AllocError) -> ReplayError {
        ReplayError::Memory
    }
}

impl From<OutOfMemory> for ReplayError {
    ghost from_gives = { λ _ e. e ≡ Memory };

    fn from(_error: OutOfMemory) -> ReplayError {
        ReplayError::Memory
    }
}

impl From<MoveError> for ReplayError {
    ghost from_gives = { λ why e. e ≡ refusal_for why };

    fn from(why: MoveError) -> ReplayError {
        match why {
            MoveError::Memory => ReplayError::Memory,
            _ => ReplayError::Refused { why },
        }
    }
}
