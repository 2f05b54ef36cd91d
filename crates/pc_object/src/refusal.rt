ghost use Rattle.std.specs.Prelude.{◌≡◌, ◌≤◌, length, Result, Err};
ghost use Rattle.pc_object.specs.declared.refusal.Halt.TheVariants.{Memory};

use pc_machine::Flaw;
use std::alloc::{AllocError, AllocFailed};
use thiserror::Error;

/// Why bytes are not read as an object: the first thing that is wrong with them, from left to
/// right. Offsets count bytes from 0.
#[derive(Clone, Copy, Debug, PartialEq, Eq, Error)]
pub enum ObjectError {
    /// One of the first four bytes that are there fits neither `PTV1` nor `PTV2`.
    #[error("not an object: the first bytes are neither PTV1 nor PTV2")]
    BadMagic,
    /// The bytes end within a field that is due, or before it. The offset is their number.
    #[error("the object is cut off at byte {offset}")]
    Truncated { offset: u32 },
    /// A field is flawed. The offset is that of the field's first byte.
    #[error("the field at byte {offset} has the flaw {flaw:?}")]
    BadField { offset: u32, flaw: Flaw },
    /// Bytes follow the notes. The offset is that of the first of them.
    #[error("bytes follow the object from byte {offset} on")]
    Trailing { offset: u32 },
    #[error("out of memory")]
    Memory,
}

/// What is wrong with bytes, told by how many of them are left from there on.
#[derive(Clone, Copy, Debug, PartialEq, Eq)]
pub enum Refusal {
    NotMagic,
    Short,
    Flawed { left: usize, flaw: Flaw },
    Longer { left: usize },
}

/// Why reading stops.
#[derive(Clone, Copy, Debug, PartialEq, Eq)]
pub enum Halt {
    Memory,
    Refused(Refusal),
}

impl From<AllocError> for Halt {
    ghost from_gives = { λ _ halt. halt ≡ Memory };

    fn from(_error: AllocError) -> Halt {
        Halt::Memory
    }
}

impl<T: Drop> From<AllocFailed<T>> for Halt {
    ghost from_gives = { λ _ halt. halt ≡ Memory };

    fn from(_error: AllocFailed<T>) -> Halt {
        Halt::Memory
    }
}
