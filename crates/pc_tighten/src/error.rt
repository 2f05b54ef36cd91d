//! Why a code was not tightened.

use pc_word::OutOfMemory;

/// Why a code was not tightened.
pub type TightenError = OutOfMemory;
