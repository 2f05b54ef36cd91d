//! Why calls on the outside are refused.
ghost use Rattle.std.specs.Prelude.{◌≡◌};
ghost use Rattle.pc_outside.specs.declared.error.ShelfError.TheVariants as shelf;
ghost use Rattle.pc_outside.specs.declared.error.TakeError.TheVariants as take;

use pc_word::OutOfMemory;
use std::alloc::AllocError;
use thiserror::Error;

/// The outside failed: a read or a write did not come about.
#[derive(Clone, Copy, Debug, PartialEq, Eq, Error)]
#[error("the outside failed")]
pub struct Failed;

/// Why a read or a write of a file was refused.
#[derive(Clone, Copy, Debug, PartialEq, Eq, Error)]
pub enum ShelfError {
    /// The shelf failed. A name that is not held is such a failure.
    #[error("the shelf failed")]
    Failed,
    /// There was no memory for the name or the bytes.
    #[error("out of memory")]
    Memory,
}

/// Why `take_all` did not give all.
#[derive(Clone, Copy, Debug, PartialEq, Eq, Error)]
pub enum TakeError {
    /// The source failed.
    #[error("the source failed")]
    Failed,
    /// There was no memory for the bytes.
    #[error("out of memory")]
    Memory,
}

/// Why something outside could not be made.
///
/// There was no memory for it.
pub type OutsideError = OutOfMemory;

impl From<AllocError> for ShelfError {
    ghost from_gives = { λ _ e. e ≡ shelf.Memory };

    fn from(_error: AllocError) -> ShelfError {
        ShelfError::Memory
    }
}

impl From<AllocError> for TakeError {
    ghost from_gives = { λ _ e. e ≡ take.Memory };

    fn from(_error: AllocError) -> TakeError {
        TakeError::Memory
    }
}

impl From<Failed> for TakeError {
    ghost from_gives = { λ _ e. e ≡ take.Failed };

    fn from(_error: Failed) -> TakeError {
        TakeError::Failed
    }
}

impl From<Failed> for ShelfError {
    ghost from_gives = { λ _ e. e ≡ shelf.Failed };

    fn from(_error: Failed) -> ShelfError {
        ShelfError::Failed
    }
}

impl From<TakeError> for ShelfError {
    ghost use Rattle.pc_outside.specs.Fault.{shelf_error_of};

    ghost from_gives = { λ error e. e ≡ shelf_error_of error };

    fn from(error: TakeError) -> ShelfError {
        match error {
            TakeError::Failed => ShelfError::Failed,
            TakeError::Memory => ShelfError::Memory,
        }
    }
}
