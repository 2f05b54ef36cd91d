ghost use Rattle.std.specs.Prelude.{◌≡◌, ℕ, ◌≤◌, ◌<◌, nat_le, true, false, length, MatchResult};
ghost use Rattle.pc_parser.specs.declared.outcome.Failure.TheVariants.{Memory};

use std::alloc::{AllocError, AllocFailed};

/// What was read: a tree, its height and the place after it.
#[derive(Debug, Drop)]
pub(crate) struct Parsed<T> {
    pub(crate) tree: T,
    pub(crate) height: usize,
    pub(crate) next: usize,
}

/// Why nothing was read.
#[derive(Clone, Copy, Debug, PartialEq, Eq)]
pub(crate) enum Failure {
    /// Memory ran out.
    Memory,
    /// The token at this place, or the end of the tokens there, goes on with nothing that can be read.
    Syntax { at: usize },
    /// What goes on from the token at this place is higher than is allowed.
    TooNested { at: usize },
}

impl From<AllocError> for Failure {
    ghost from_gives = { λ _ failure. failure ≡ Memory };

    fn from(_error: AllocError) -> Failure {
        Failure::Memory
    }
}

impl<T: Drop> From<AllocFailed<T>> for Failure {
    ghost from_gives = { λ _ failure. failure ≡ Memory };

    fn from(_error: AllocFailed<T>) -> Failure {
        Failure::Memory
    }
}

/// Whether the budget allows what is at least this high, and begins at this place.
pub(crate) fn within(least: usize, budget: usize, at: usize) -> Result<(), Failure>
    ensures test { MatchResult result (λ _. nat_le least budget ≡ true) (λ failure. (failure ≡ Failure.TooNested at) × (nat_le least budget ≡ false)) }
    ensures order { MatchResult result (λ _. least ≤ budget) (λ _. budget < least) }
{
    if least <= budget {
        Ok(())
    } else {
        Err(Failure::TooNested { at })
    }
}
