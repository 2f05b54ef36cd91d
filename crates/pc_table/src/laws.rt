//! Laws of the definitions. No function here does anything: each one's contract is a law.
ghost use Rattle.pc_table.specs.Laws.{RegionRunsGrow, DeadVariablesAreNotSeen};

/// The runs of regions only grow, and variables that are not live at a region's head do not matter
/// to it.
pub fn laws_of_regions()
    ensures grow { RegionRunsGrow }
    ensures dead { DeadVariablesAreNotSeen }
{}
