//! Why names got no registers.
ghost use Rattle.std.specs.Prelude.{◌≡◌};
ghost use Rattle.pc_assign.specs.declared.error.AssignError.TheVariants.{Memory};

use std::alloc::AllocError;
use thiserror::Error;

/// Why names got no registers.
#[derive(Clone, Copy, Debug, PartialEq, Eq, Error)]
pub enum AssignError {
    /// In this state more names are live together than there are registers for them.
    #[error("{live} names are live together in state {state}")]
    Pressure { state: u32, live: u64 },
    /// Memory ran out.
    #[error("out of memory")]
    Memory,
}

impl From<AllocError> for AssignError {
    ghost from_gives = { λ _ e. e ≡ Memory };

    fn from(_error: AllocError) -> AssignError {
        AssignError::Memory
    }
}
