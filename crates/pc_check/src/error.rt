ghost use Rattle.std.specs.Prelude.{◌≡◌};
ghost use Rattle.pc_check.specs.declared.error.CheckError.TheVariants.{Memory};

use std::alloc::{AllocError, AllocFailed};
use thiserror::Error;

/// Why a program is refused, with the line of its first fault.
///
/// Faults are met in the order of the text. `Undeclared`, `NotArray` and `NotScalar` have the line of
/// the name that is used, and `Redeclared`, `TooManyScalars` and `TooManyArrays` that of the name that
/// is declared.
#[derive(Clone, Copy, Debug, PartialEq, Eq, Error)]
pub enum CheckError {
    /// A name that no scope around it has declared so far (C17 6.5.1).
    #[error("undeclared name at line {line}")]
    Undeclared { line: u32 },
    /// A name that the same scope has declared already (C17 6.7).
    #[error("name declared twice at line {line}")]
    Redeclared { line: u32 },
    /// A scalar that is indexed.
    #[error("not an array at line {line}")]
    NotArray { line: u32 },
    /// An array that is used without an index.
    #[error("not a scalar at line {line}")]
    NotScalar { line: u32 },
    /// An array's length that is 0 or above 65,536. The line is that of the length.
    #[error("bad array size at line {line}")]
    BadSize { line: u32 },
    /// A `break` or `continue` that stands in no loop's body (C17 6.8.6.2, 6.8.6.3).
    #[error("outside a loop at line {line}")]
    OutsideLoop { line: u32 },
    /// A 65th scalar.
    #[error("too many scalars at line {line}")]
    TooManyScalars { line: u32 },
    /// A 33rd array.
    #[error("too many arrays at line {line}")]
    TooManyArrays { line: u32 },
    /// An array with which all arrays have more than 1,048,576 elements. The line is that of its length.
    #[error("too many elements at line {line}")]
    TooManyElements { line: u32 },
    /// An array that is initialised with more values than it has elements (C17 6.7.9). The line is that of
    /// the first value that is too many.
    #[error("too many values at line {line}")]
    TooManyValues { line: u32 },
    /// An expression that needs more than 32 temporaries at once. The line is that of the statement or of
    /// the declared name.
    #[error("expression too deep at line {line}")]
    TooDeep { line: u32 },
    /// Memory ran out.
    #[error("out of memory")]
    Memory,
}

impl From<AllocError> for CheckError {
    ghost from_gives = { λ _ e. e ≡ Memory };

    fn from(_error: AllocError) -> CheckError {
        CheckError::Memory
    }
}

impl<T: Drop> From<AllocFailed<T>> for CheckError {
    ghost from_gives = { λ _ e. e ≡ Memory };

    fn from(_error: AllocFailed<T>) -> CheckError {
        CheckError::Memory
    }
}
