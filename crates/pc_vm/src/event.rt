//! What a machine's calls answer.

use pc_word::{End, OutOfMemory};
use thiserror::Error;

/// What one cycle did: the number that it printed, if any, and the end, if it came.
#[derive(Clone, Copy, Debug, PartialEq, Eq)]
pub struct Event {
    pub printed: Option<i32>,
    pub end: Option<End>,
}

/// How a run of some cycles stands: it is over, or it goes on.
#[derive(Clone, Copy, Debug, PartialEq, Eq)]
pub enum Outcome {
    Over { end: End },
    Going,
}

/// Why a run was broken off.
#[derive(Clone, Copy, Debug, PartialEq, Eq, Error)]
pub enum RunError {
    /// The sink failed. A proper prefix of the text was sent.
    #[error("the sink failed")]
    Write,
}

/// Why a machine could not be made.
///
/// There was no memory for what a run needs.
pub type MachineError = OutOfMemory;
