//! The law of the bounds of cycles. The function here does nothing: its contract is the law.
ghost use Rattle.pc_cycles.specs.Laws.{BoundsAreKept};

/// Once round a cycle takes no fewer rows than its bound.
pub fn law_of_bounds()
    ensures { BoundsAreKept }
{}
