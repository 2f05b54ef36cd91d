//! Laws of the definitions that contracts speak of. No function here does anything: each one's
//! contract is a law, and that it is proved is all that it is for.
ghost use Rattle.pc_machine.specs.Laws.{NoFlawStands, MachineRunsGrow, ACycleIsItsRowsStep};

/// A code is well formed exactly where no flaw stands in it, its runs only grow, and a cycle is the
/// step of its row.
pub fn laws_of_codes()
    ensures none { NoFlawStands }
    ensures grows { MachineRunsGrow }
    ensures cycles { ACycleIsItsRowsStep }
{}
