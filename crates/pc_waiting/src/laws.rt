//! Laws of what waits. No function here does anything: each one's contract is a law, and that it is proved is all that it is for.
ghost use Rattle.pc_waiting.specs.Laws.{ReadyMeansFree, FreeMeansReady, WhatIsReadyStands, NothingWaitsWithoutReason, WaitsHaveOneAnswer, NoIterationIsCutOff};

/// In a proper window what is ready and has room has no obstacle, and what stands behind the front and has none is ready and has room.
/// All that is ready stands behind the front. So in a window that was filled each item and test that stands behind the front has an
/// entry that says what keeps it.
pub fn laws_of_waiting()
    ensures ready { ReadyMeansFree }
    ensures free { FreeMeansReady }
    ensures stands { WhatIsReadyStands }
    ensures filled { NothingWaitsWithoutReason }
{}

/// What is said to wait in a window, and why, is determined.
#[tactic(auto, using(crate::proofs::Ways::waits_have_one_answer))]
pub fn law_of_one_answer()
    ensures { WaitsHaveOneAnswer }
{}

/// Where iterations are counted from a window's least tag, none that is told is cut off.
#[tactic(auto, using(crate::proofs::Counted::no_iteration_is_cut_off))]
pub fn law_of_counted_iterations()
    ensures { NoIterationIsCutOff }
{}
