//! Why a move was refused.
ghost use Rattle.std.specs.Prelude.{◌≡◌};
ghost use Rattle.pc_moveop.specs.declared.error.MoveError.TheVariants.{Memory};

use std::alloc::AllocError;
use thiserror::Error;

/// What a front has no room for.
#[derive(Clone, Copy, Debug, PartialEq, Eq)]
pub enum RoomKind {
    Ops,
    Tests,
    Mem,
}

/// Why a move was refused.
#[derive(Clone, Copy, Debug, PartialEq, Eq, Error)]
pub enum MoveError {
    /// There is no such node, leaf, item or test.
    #[error("what is to move is not there")]
    NotThere,
    /// An operand, this name, is defined on the way; of a deletion: this name is used below.
    #[error("a name on the way is needed")]
    Depends { name: u32 },
    /// A load or store on the way may touch the same element. It comes from this node of the source.
    #[error("a load or store is in the way")]
    MemoryOrder { origin: u32 },
    /// A test stands before a store, print, read or more.
    #[error("an effect may not pass the tests above it")]
    EffectAboveTest,
    /// Two prints, reads or mores would change places, or share a node.
    #[error("an effect may not pass another")]
    EffectOrder,
    /// The front has no room.
    #[error("the front is full")]
    Full { kind: RoomKind },
    /// Memory ran out.
    #[error("out of memory")]
    Memory,
}

impl From<AllocError> for MoveError {
    ghost from_gives = { λ _ e. e ≡ Memory };

    fn from(_error: AllocError) -> MoveError {
        MoveError::Memory
    }
}
