//! What keeps an item or test from coming into a window's front.
use pc_word::Item;

/// What a front may be full of.
#[derive(Clone, Copy, Debug, PartialEq, Eq)]
pub enum Resource {
    /// Items of all kinds.
    Items,
    /// Tests.
    Tests,
    /// Loads and stores.
    Memory,
}

/// What keeps an item or test that stands behind a window's front from coming into it.
///
/// An item or test that is named here stands above it, on the path that leads to it. Its iteration is counted from the first one
/// that was given, and its origin is the number of a node of the flow graph.
#[derive(Clone, Copy, Debug, PartialEq, Eq)]
pub enum Obstacle {
    /// It reads what this item writes, which is known only once the row of that item is done.
    Needs { iteration: u32, origin: u32 },
    /// It may not pass this item, or, where that is in the front, not stand behind it: both may touch one element of an array, into
    /// which one of them stores, or each is a print, read or more.
    Meets { iteration: u32, origin: u32 },
    /// It may not pass this test, which is not in the front: it is a test itself, or an item that does more than to give its name
    /// a word.
    Undecided { iteration: u32, origin: u32 },
    /// The front has no room for it.
    NoRoom { resource: Resource },
}

/// An item or test that waits behind a window's front: its iteration, counted from the first one that was given, its origin, the
/// item, or `None` where it is a test, and what keeps it from coming into the front.
#[derive(Clone, Copy, Debug)]
pub struct Waiting {
    pub iteration: u32,
    pub origin: u32,
    pub what: Option<Item>,
    pub obstacle: Obstacle,
}
