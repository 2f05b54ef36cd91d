//! Why a certificate is not accepted.
ghost use Rattle.std.specs.Prelude.{◌≡◌};
ghost use Rattle.pc_checking.specs.declared.error.CheckError.TheVariants.{Memory};

use pc_accepted::Rejection;
use pc_word::OutOfMemory;
use thiserror::Error;

/// Why a certificate is not accepted.
#[derive(Clone, Copy, Debug, PartialEq, Eq, Error)]
pub enum CheckError {
    /// It is refused: the first entry that is, and why.
    #[error("the certificate is refused")]
    Rejected { rejection: Rejection },
    /// Memory ran out.
    #[error("out of memory")]
    Memory,
}

impl From<OutOfMemory> for CheckError {
    ghost from_gives = { λ _ e. e ≡ Memory };

    fn from(_error: OutOfMemory) -> CheckError {
        CheckError::Memory
    }
}
