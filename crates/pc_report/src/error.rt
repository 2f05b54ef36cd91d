//! Why a text was not made.

use pc_word::OutOfMemory;

/// Why a text was not made.
pub type ReportError = OutOfMemory;
