//! Why no rows were made.

use pc_word::OutOfMemory;

/// Why no rows were made.
///
/// Memory ran out, or the numbers of rows did, which are below 2^32.
pub type EmitError = OutOfMemory;
