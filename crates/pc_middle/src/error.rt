//! Why a program has no regions.
ghost use Rattle.std.specs.Prelude.{◌≡◌};
ghost use Rattle.pc_middle.specs.declared.error.CutError.TheVariants.{Memory};
ghost use Rattle.pc_middle.specs.models.Errors.{error_of_lowering};

use pc_lower::LowerError;
use pc_pass::PassMemory;
use pc_word::OutOfMemory;
use thiserror::Error;

/// Why a program has no regions.
#[derive(Clone, Copy, Debug, PartialEq, Eq, Error)]
pub enum CutError {
    /// Its flow graph would have so many nodes, more than 16,384, or 4294967295 where it would have
    /// more than that.
    #[error("the flow graph has more than 16384 nodes")]
    TooLarge { nodes: u32 },
    /// Memory ran out.
    #[error("out of memory")]
    Memory,
}

impl From<LowerError> for CutError {
    ghost from_gives = { λ error given. given ≡ error_of_lowering error };

    fn from(error: LowerError) -> CutError {
        match error {
            LowerError::TooLarge { nodes } => CutError::TooLarge { nodes },
            LowerError::Memory => CutError::Memory,
        }
    }
}

impl From<PassMemory> for CutError {
    ghost from_gives = { λ _ error. error ≡ Memory };

    fn from(_error: PassMemory) -> CutError {
        CutError::Memory
    }
}

impl From<OutOfMemory> for CutError {
    ghost from_gives = { λ _ error. error ≡ Memory };

    fn from(_error: OutOfMemory) -> CutError {
        CutError::Memory
    }
}
