use crate::homes::HomeTable;
use pc_window::NameTable;

/// What grows while a window is unwound: its names, and its items and tests, which are counted. And the
/// table into which the homes of its stubs are put.
#[derive(Debug, Drop)]
pub(crate) struct Growth {
    pub(crate) names: NameTable,
    pub(crate) size: u32,
    pub(crate) homes: HomeTable,
}
