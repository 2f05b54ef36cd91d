use std::alloc::{AllocError, AllocFailed};
use thiserror::Error;

/// Why a text has no tokens. Lines are counted from 1, offsets in bytes from 0.
#[derive(Clone, Copy, Debug, PartialEq, Eq, Error)]
pub enum LexError {
    /// A byte that begins no blank, comment, skipped line or token, as `$`, `.` or a stray `#`.
    #[error("byte {offset} begins no token")]
    BadByte { offset: u32 },
    /// A number in that line that is no `int` constant without suffix (C17 6.4.4.1).
    #[error("line {line}: misspelt number")]
    BadLiteral { line: u32 },
    /// A `/*` in that line that no `*/` closes.
    #[error("line {line}: comment is not closed")]
    OpenComment { line: u32 },
    /// Something other than blanks, comments and skipped lines stands after token 65,536.
    #[error("too many tokens")]
    TooManyTokens,
    /// There was no memory for the answer.
    #[error("out of memory")]
    Memory,
}

impl From<AllocError> for LexError {
    ghost use Rattle.std.specs.Prelude.{◌≡◌};
    ghost use Rattle.pc_lexer.specs.declared.error.LexError.TheVariants.{Memory};

    ghost from_gives = { λ _ e. e ≡ Memory };

    fn from(_refused: AllocError) -> LexError {
        LexError::Memory
    }
}

impl<T: Drop> From<AllocFailed<T>> for LexError {
    ghost use Rattle.std.specs.Prelude.{◌≡◌};
    ghost use Rattle.pc_lexer.specs.declared.error.LexError.TheVariants.{Memory};

    ghost from_gives = { λ _ e. e ≡ Memory };

    fn from(_refused: AllocFailed<T>) -> LexError {
        LexError::Memory
    }
}
