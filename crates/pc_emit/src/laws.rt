//! The law of emitted rows. The function here does nothing: its contract is the law, and that it is
//! proved is all that it is for.
ghost use Rattle.pc_emit.specs.Laws.{EmittedRowsDoWhatTheirTableDoes};

/// A code in which the rows of each region stand, in one of its forms, shows what the table shows,
/// where that never faults.
pub fn law_of_emission()
    ensures { EmittedRowsDoWhatTheirTableDoes }
{}
