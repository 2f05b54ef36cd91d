//! Laws of functions by inlining. No function here does anything: each one's contract is a law, and
//! that it is proved is all that it is for.
ghost use Rattle.pc_calls.specs.Laws.{InliningKeepsRuns, PlainSourcesRunAsPrograms, SizesAreCounted, PlainSourcesStay};

/// A translation unit that is not refused, and whose inlined program has no faults, shows what this
/// program shows, for every input and however many steps are allowed. A unit without functions shows
/// what its program shows, and inlines to it. How large the inlined program is, and how high, is counted
/// of the unit alone.
pub fn law_of_inlining()
    ensures same { InliningKeepsRuns }
    ensures plain { PlainSourcesRunAsPrograms }
    ensures sizes { SizesAreCounted }
    ensures stays { PlainSourcesStay }
{}
