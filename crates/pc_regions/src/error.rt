//! Why a graph was not cut.

use pc_word::OutOfMemory;

/// Why a graph was not cut.
pub type RegionError = OutOfMemory;
