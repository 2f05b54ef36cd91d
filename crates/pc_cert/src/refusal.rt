ghost use Rattle.std.specs.Prelude.{◌≡◌};
ghost use Rattle.pc_cert.specs.declared.refusal.Halt.TheVariants.{Memory};

use std::alloc::{AllocError, AllocFailed};
use thiserror::Error;

/// Why bytes are not read as a certificate: the first thing that is wrong with them, from left to right. Offsets count
/// bytes from 0.
#[derive(Clone, Copy, Debug, PartialEq, Eq, Error)]
pub enum CertificateError {
    /// One of the first four bytes that are there does not fit `PTC1`.
    #[error("not a certificate: the first bytes are not PTC1")]
    BadMagic,
    /// The bytes end within a field that is due, or before it. The offset is their number.
    #[error("the certificate is cut off at byte {offset}")]
    Truncated { offset: u32 },
    /// The tag of a source or of an operand is neither 00 nor 01. The offset is that of the tag.
    #[error("the fact at byte {offset} has an unknown tag")]
    BadFact { offset: u32 },
    /// The tag of a step is unknown, or the byte of an opening has a window above 8. The offset is that of the byte.
    #[error("the step or opening at byte {offset} is unknown")]
    BadStep { offset: u32 },
    /// Bytes follow the entries. The offset is that of the first of them.
    #[error("bytes follow the certificate from byte {offset} on")]
    Trailing { offset: u32 },
    #[error("out of memory")]
    Memory,
}

/// What is wrong with bytes, told by how many of them are left from there on.
#[derive(Clone, Copy, Debug, PartialEq, Eq)]
pub enum Refusal {
    NotMagic,
    Short,
    BadFact { left: usize },
    BadStep { left: usize },
    Longer { left: usize },
}

/// Why reading stops.
#[derive(Clone, Copy, Debug, PartialEq, Eq)]
pub enum Halt {
    Memory,
    Refused(Refusal),
}

impl From<AllocError> for Halt {
    ghost from_gives = { λ _ halt. halt ≡ Memory };

    fn from(_error: AllocError) -> Halt {
        Halt::Memory
    }
}

impl<T: Drop> From<AllocFailed<T>> for Halt {
    ghost from_gives = { λ _ halt. halt ≡ Memory };

    fn from(_error: AllocFailed<T>) -> Halt {
        Halt::Memory
    }
}
