use std::alloc::AllocError;
use thiserror::Error;

/// A pass was refused memory.
#[derive(Clone, Copy, Debug, PartialEq, Eq, Error)]
#[error("out of memory")]
pub struct PassMemory;

impl From<AllocError> for PassMemory {
    fn from(_error: AllocError) -> PassMemory {
        PassMemory
    }
}
