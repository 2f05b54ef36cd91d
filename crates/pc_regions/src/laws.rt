//! Laws of the definitions. No function here does anything: each one's contract is a law.
ghost use Rattle.pc_regions.specs.Laws.{ACutRunsAsItsGraph, AGraphHasOneCut, RegionsRunAsTheirNodes};

/// A graph has one cut.
pub fn law_of_one_cut()
    ensures { AGraphHasOneCut }
{}

/// A cut and its graph keep step: after every number of items and tests the one shows what the other
/// shows after as many nodes, from the entry on every input, and from the head of each region in any
/// state.
pub fn laws_of_cut_runs()
    ensures whole { ACutRunsAsItsGraph }
    ensures each { RegionsRunAsTheirNodes }
{}
