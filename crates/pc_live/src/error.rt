//! Why liveness was not found.

use pc_word::OutOfMemory;

/// Why liveness was not found.
pub type LiveError = OutOfMemory;
