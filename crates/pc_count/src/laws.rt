//! Laws of the definitions that contracts speak of. No function here does anything: each one's contract is a law.
ghost use Rattle.pc_count.specs.Laws.{CyclesAreLeast, LeavesAddUp, RowsAddUp};

/// The cycles of a run are the least number with which it has ended, or all that it may take.
pub fn laws_of_cycles()
    ensures { CyclesAreLeast }
{}

/// The counts of the rows add up to the cycles, and those of a row's leaves to the row's count, but for a cycle that faults.
pub fn laws_of_counts()
    ensures rows { RowsAddUp }
    ensures leaves { LeavesAddUp }
{}
