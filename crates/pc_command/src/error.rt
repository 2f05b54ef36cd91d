//! Why words give no command.
ghost use Rattle.std.specs.Prelude.{◌≡◌};
ghost use Rattle.clap.specs.Values.{kind_of};
ghost use Rattle.pc_command.specs.declared.error.CommandError.TheVariants.{Memory};
ghost use Rattle.pc_command.specs.models.Refusal.{refusal_for};

use clap::error::ErrorKind;
use std::alloc::AllocError;
use thiserror::Error;

/// Why words give no command.
#[derive(Clone, Copy, Debug, PartialEq, Eq, Error)]
pub enum CommandError {
    /// The words are no command: `clap` refuses them, they ask for help, or SRC begins with `@` and
    /// spells no sample.
    #[error("no command")]
    NoCommand,
    /// There was no memory for the answer.
    #[error("out of memory")]
    Memory,
}

impl From<clap::Error> for CommandError {
    ghost from_gives = { λ given error. error ≡ refusal_for (kind_of given) };

    fn from(given: clap::Error) -> CommandError {
        match given.kind() {
            ErrorKind::OutOfMemory => CommandError::Memory,
            _ => CommandError::NoCommand,
        }
    }
}
