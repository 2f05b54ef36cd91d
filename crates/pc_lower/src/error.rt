//! Why a program was not lowered.
ghost use Rattle.std.specs.Prelude.{◌≡◌};
ghost use Rattle.pc_lower.specs.declared.error.LowerError.TheVariants.{Memory};

use std::alloc::AllocError;
use thiserror::Error;

/// Why a program was not lowered.
#[derive(Clone, Copy, Debug, PartialEq, Eq, Error)]
pub enum LowerError {
    /// Its flow graph would have so many nodes, more than 16,384, or 4294967295 where it would have
    /// more than that.
    #[error("the flow graph has more than 16384 nodes")]
    TooLarge { nodes: u32 },
    /// Memory ran out.
    #[error("out of memory")]
    Memory,
}

impl From<AllocError> for LowerError {
    ghost from_gives = { λ _ e. e ≡ Memory };

    fn from(_error: AllocError) -> LowerError {
        LowerError::Memory
    }
}
