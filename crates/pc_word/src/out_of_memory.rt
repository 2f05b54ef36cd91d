//! Want of memory, of calls that fail in no other way.
ghost use Rattle.std.specs.Prelude.{◌≡◌};
ghost use Rattle.pc_word.specs.declared.out_of_memory.OutOfMemory.TheVariants.{Memory};

use std::alloc::{AllocError, AllocFailed};
use thiserror::Error;

/// There was too little memory. A call that fails in no other way answers this.
#[derive(Clone, Copy, Debug, PartialEq, Eq, Error)]
pub enum OutOfMemory {
    /// Memory ran out.
    #[error("out of memory")]
    Memory,
}

impl From<AllocError> for OutOfMemory {
    ghost from_gives = { λ _ e. e ≡ Memory };

    fn from(_error: AllocError) -> OutOfMemory {
        OutOfMemory::Memory
    }
}

impl<T: Drop> From<AllocFailed<T>> for OutOfMemory {
    ghost from_gives = { λ _ e. e ≡ Memory };

    fn from(_error: AllocFailed<T>) -> OutOfMemory {
        OutOfMemory::Memory
    }
}
