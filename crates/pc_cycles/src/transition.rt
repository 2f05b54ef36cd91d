//! Transitions from state to state.

/// A transition from a state: a leaf of its row.
#[derive(Clone, Copy, Debug, PartialEq, Eq)]
pub struct Transition {
    /// The state, by its number.
    pub state: u32,
    /// The leaf, by its number among those of the row, counted from 0, the yes side of a test first.
    pub leaf: u32,
}
