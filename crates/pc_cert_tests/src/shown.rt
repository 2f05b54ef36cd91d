//! Windows and facts as text, to be held against what was worked out by hand.

use pc_matching::Fact;
use pc_window::Window;
use pc_window_specimen::front_text;
use std::alloc::{AllocError, Global};

/// Whether a window is this, written out.
pub(crate) fn is_window(alloc: Global, window: &Window, wanted: &str) -> Result<bool, AllocError> {
    let text = front_text(alloc, &window.tree)?;
    Ok(text.as_str() == wanted)
}

/// Whether the first of some facts, at most so many, are these: a line for each, with its source and its
/// operand.
pub(crate) fn are_facts(
    alloc: Global,
    facts: &[Fact],
    most: usize,
    wanted: &str,
) -> Result<bool, AllocError> {
    let mut text = String::new(alloc);
    for fact in facts.iter().take(most) {
        let line = format!(in alloc; "{:?} has {:?}\n", fact.source, fact.operand)?;
        text.push_str(line.as_str())?;
    }
    Ok(text.as_str() == wanted)
}
