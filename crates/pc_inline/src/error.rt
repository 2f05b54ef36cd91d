ghost use Rattle.std.specs.Prelude.{◌≡◌};
ghost use Rattle.pc_inline.specs.declared.error.InlineError.TheVariants.{Memory};

use pc_word::OutOfMemory;
use std::alloc::{AllocError, AllocFailed};
use thiserror::Error;

/// Why calls cannot be replaced, with the line of what is refused.
///
/// What has a line is refused at the first place of the text, over all functions and `main`. The size of
/// the inlined program's size is looked at where nothing in the text is refused.
#[derive(Clone, Copy, Debug, PartialEq, Eq, Error)]
pub enum InlineError {
    /// A function with the name of an earlier one. The line is that of the name.
    #[error("function twice at line {line}")]
    FunctionTwice { line: u32 },
    /// A `return` in a function that is not the last item of its block.
    #[error("early return at line {line}")]
    EarlyReturn { line: u32 },
    /// An array that is declared in a function. The line is that of its name.
    #[error("array in function at line {line}")]
    ArrayInFunction { line: u32 },
    /// A `break` or `continue` that stands in no loop of its function.
    #[error("jump outside a loop at line {line}")]
    LooseJump { line: u32 },
    /// A call, where no function of the name was completed before. The line is that of the called name.
    #[error("no such function at line {line}")]
    NoFunction { line: u32 },
    /// A call with more or fewer arguments than its function has parameters. The line is that of the called
    /// name.
    #[error("wrong number of arguments at line {line}")]
    Arguments { line: u32 },
    /// An inlined program of more than 65,536 statements, or with more than 262,144 nodes of
    /// expressions.
    #[error("inlined program too big")]
    TooBig,
    /// An inlined program that is higher than 256.
    #[error("inlined program too high")]
    TooHigh,
    /// Memory ran out.
    #[error("out of memory")]
    Memory,
}

impl From<AllocError> for InlineError {
    ghost from_gives = { λ _ e. e ≡ Memory };

    fn from(_error: AllocError) -> InlineError {
        InlineError::Memory
    }
}

impl<T: Drop> From<AllocFailed<T>> for InlineError {
    ghost from_gives = { λ _ e. e ≡ Memory };

    fn from(_error: AllocFailed<T>) -> InlineError {
        InlineError::Memory
    }
}

impl From<OutOfMemory> for InlineError {
    ghost from_gives = { λ _ e. e ≡ Memory };

    fn from(_error: OutOfMemory) -> InlineError {
        InlineError::Memory
    }
}
