//! Why a program has no object.
ghost use Rattle.std.specs.Prelude.{◌≡◌};
ghost use Rattle.pc_compile.specs.declared.error.CompileError.TheVariants.{Memory};
ghost use Rattle.pc_compile.specs.models.Errors.{error_of_lowering};

use pc_lower::LowerError;
use pc_pass::PassMemory;
use pc_word::OutOfMemory;
use std::alloc::AllocError;
use thiserror::Error;

/// Why a program has no object.
#[derive(Clone, Copy, Debug, PartialEq, Eq, Error)]
pub enum CompileError {
    /// Its flow graph would have so many nodes, more than 16,384, or 4294967295 where it would have
    /// more than that.
    #[error("the flow graph has more than 16384 nodes")]
    TooLarge { nodes: u32 },
    /// Memory ran out.
    #[error("out of memory")]
    Memory,
}

impl From<LowerError> for CompileError {
    ghost from_gives = { λ error given. given ≡ error_of_lowering error };

    fn from(error: LowerError) -> CompileError {
        match error {
            LowerError::TooLarge { nodes } => CompileError::TooLarge { nodes },
            LowerError::Memory => CompileError::Memory,
        }
    }
}

impl From<PassMemory> for CompileError {
    ghost from_gives = { λ _ error. error ≡ Memory };

    fn from(_error: PassMemory) -> CompileError {
        CompileError::Memory
    }
}

impl From<OutOfMemory> for CompileError {
    ghost from_gives = { λ _ error. error ≡ Memory };

    fn from(_error: OutOfMemory) -> CompileError {
        CompileError::Memory
    }
}

impl From<AllocError> for CompileError {
    ghost from_gives = { λ _ error. error ≡ Memory };

    fn from(_error: AllocError) -> CompileError {
        CompileError::Memory
    }
}
