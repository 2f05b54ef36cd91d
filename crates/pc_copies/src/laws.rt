//! A law of the definitions that contracts speak of. No function here does anything: its contract is
//! the law, and that it is proved is all that it is for.
ghost use Rattle.pc_copies.specs.Laws.{CopiesCommit};

/// A row of copies faults in no state and prints nothing, and goes on at its leaf.
pub fn law_of_copies()
    ensures { CopiesCommit }
{}
