use pc_window::{HomeList, Window};
use pc_word::TrapKind;

/// What is left of a window at a leaf of its front.
#[derive(Debug, Drop)]
pub enum Left {
    /// What stood behind the leaf, as a window of its own.
    Rest { window: Window },
    /// The window's loop is left for a region, where variables have these values.
    Out { region: u32, homes: HomeList },
    /// The end of the program.
    Stop,
    /// A trap, with its line in the source.
    Trap { kind: TrapKind, line: u32 },
}
