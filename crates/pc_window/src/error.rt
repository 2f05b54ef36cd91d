//! Why a window was not made or changed.

use pc_word::OutOfMemory;

/// Why a window was not made or changed.
pub type WindowError = OutOfMemory;
