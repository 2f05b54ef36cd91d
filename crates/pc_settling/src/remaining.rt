//! What is left, and what an entry begins with.
use pc_matching::FactList;
use pc_window::Window;

/// What is still to be done at a leaf of a row: a window, and the facts that hold where it begins.
#[derive(Debug, Drop)]
pub struct Remaining {
    pub window: Window,
    pub facts: FactList,
}

/// What an entry of a certificate begins with: a window, and the facts that hold where it begins.
#[derive(Debug, Drop)]
pub struct Begun {
    pub window: Window,
    pub facts: FactList,
    /// Whether a region was entered on the way.
    pub entered: bool,
}
