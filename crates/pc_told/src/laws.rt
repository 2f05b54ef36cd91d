//! Laws of what is told, and of resources. No function here does anything: each one's contract is a law, and that it is proved is all
//! that it is for.
ghost use Rattle.pc_told.specs.Laws.{IterationsCount, PathsHaveRoom, PathsTakeRows};

/// What a window tells are its tags, counted from the first iteration of which it has anything: of each item and test, and of what is
/// left at each leaf that goes on.
#[tactic(auto, using(crate::proofs::Iterations::iterations_count))]
pub fn law_of_iterations()
    ensures { IterationsCount }
{}

/// A path through rows within limits meets no more items, tests, and loads and stores than so many rows have room for, and so takes
/// at least as many rows as have room for what it meets.
#[tactic(auto, using(crate::proofs::Rooms::paths))]
pub fn law_of_resources()
    ensures room { PathsHaveRoom }
    ensures rows { PathsTakeRows }
{}
