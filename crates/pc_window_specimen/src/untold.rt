//! Why nothing was made of what was told.
ghost use Rattle.std.specs.Prelude.{◌≡◌};
ghost use Rattle.pc_window_specimen.specs.declared.untold.Untold.TheVariants.{Memory};

use pc_word::OutOfMemory;
use std::alloc::AllocError;
use thiserror::Error;

/// Why nothing was made of what was told.
#[derive(Clone, Copy, Debug, PartialEq, Eq, Error)]
pub enum Untold {
    /// It is no tree, no table, or no region of one.
    #[error("what is told is no table")]
    NoTable,
    /// Memory ran out.
    #[error("out of memory")]
    Memory,
}

impl From<OutOfMemory> for Untold {
    ghost from_gives = { λ _ e. e ≡ Memory };

    fn from(_error: OutOfMemory) -> Untold {
        Untold::Memory
    }
}

impl From<AllocError> for Untold {
    ghost from_gives = { λ _ e. e ≡ Memory };

    fn from(_error: AllocError) -> Untold {
        Untold::Memory
    }
}
