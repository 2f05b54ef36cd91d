//! Why moves were not arranged.

use pc_word::OutOfMemory;

/// Why moves were not arranged.
pub type CopyError = OutOfMemory;
