//! Why nothing was chosen.

use pc_word::OutOfMemory;

/// Why nothing was chosen.
pub type ChooseError = OutOfMemory;
