ghost use Rattle.std.specs.Prelude.{◌≡◌, length};
ghost use Rattle.pc_assembly.specs.declared.error.Halt.TheVariants.{Memory};
ghost use Rattle.pc_assembly.specs.declared.error.ListingError.TheVariants as of_listing;

use crate::spelling::{Mark, Word};
use pc_object::ObjectError;
use std::alloc::{AllocError, AllocFailed};
use thiserror::Error;

/// A place in a listing. Lines are counted from 1, and columns too, in bytes.
#[derive(Clone, Copy, Debug, PartialEq, Eq)]
pub struct Place {
    pub line: usize,
    pub column: usize,
}

/// What a listing was to go on with.
#[derive(Clone, Copy, Debug, PartialEq, Eq)]
pub enum Expected {
    /// This word.
    Word(Word),
    /// This mark.
    Mark(Mark),
    /// A number of items, tests, or loads and stores, of at most 255.
    Limit,
    /// A number below 2^32.
    Number,
    /// A number of registers below 2^16.
    RegisterCount,
    /// A register, `r0` to `r255`.
    Register,
    /// An array, `a0` to `a255`; among the arrays of the first line, the next one.
    Array,
    /// The next element of an array's words, or the first of a later array, within its length.
    Element,
    /// A word, from -2147483648 to 2147483647.
    Literal,
    /// A register or a word.
    Operand,
    /// One of the operators.
    Operator,
    /// An item, a test or a leaf.
    Part,
    /// An item or a leaf, since 255 tests are without their no side.
    NoTest,
    /// Why a run is stopped: `divide by zero`, `out of bounds` or `end of input`.
    TrapKind,
    /// The number of the next row.
    RowNumber,
    /// `row` and a number, or the name of a row.
    RowOrName,
    /// A name that a row has.
    RowName,
    /// A name that no row before this one has.
    NewName,
    /// The form of a loop: `pipelined`, `packed` or `plain`.
    Form,
    /// What decided the form of a loop.
    Reason,
    /// Nothing but a comment up to the end of the line.
    LineEnd,
    /// The end of the text, since an object has at most 65,535 notes.
    TextEnd,
}

/// What a line was to go on with, and how many of its bytes are left from there on.
#[derive(Clone, Copy, Debug, PartialEq, Eq)]
pub struct Complaint {
    pub left: usize,
    pub expected: Expected,
}

/// Why the reading of a line stops.
#[derive(Clone, Copy, Debug, PartialEq, Eq)]
pub enum Halt {
    Memory,
    Unexpected(Complaint),
}

impl From<AllocError> for Halt {
    ghost from_gives = { λ _ halt. halt ≡ Memory };

    fn from(_error: AllocError) -> Halt {
        Halt::Memory
    }
}

impl<T: Drop> From<AllocFailed<T>> for Halt {
    ghost from_gives = { λ _ halt. halt ≡ Memory };

    fn from(_error: AllocFailed<T>) -> Halt {
        Halt::Memory
    }
}

/// Why a text is not read as a listing: the first thing that is wrong with it.
#[derive(Clone, Copy, Debug, PartialEq, Eq, Error)]
pub enum ListingError {
    /// The listing does not go on so at this place.
    #[error("{at:?}: {expected:?} is expected")]
    Unexpected { at: Place, expected: Expected },
    /// The bytes that the listing stands for are no object. The place is that of the line which
    /// stands for the byte that the refusal names, or of the line of the limits.
    #[error("{at:?}: {why}")]
    Refused { at: Place, why: ObjectError },
    /// The listing stands for more than 16,777,216 bytes.
    #[error("the object has too many bytes")]
    TooLong,
    #[error("out of memory")]
    Memory,
}

impl From<AllocError> for ListingError {
    ghost from_gives = { λ _ error. error ≡ of_listing.Memory };

    fn from(_error: AllocError) -> ListingError {
        ListingError::Memory
    }
}

impl<T: Drop> From<AllocFailed<T>> for ListingError {
    ghost from_gives = { λ _ error. error ≡ of_listing.Memory };

    fn from(_error: AllocFailed<T>) -> ListingError {
        ListingError::Memory
    }
}

/// The complaint where `bytes` begin.
pub fn unexpected(bytes: &[u8], expected: Expected) -> Halt
    ensures { result ≡ Halt.Unexpected (record { left = length bytes.now; expected = expected }) }
{
    Halt::Unexpected(Complaint {
        left: bytes.len(),
        expected,
    })
}
