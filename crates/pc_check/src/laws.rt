//! Laws of what programs are resolved to. The function here does nothing: its contract is the laws, and
//! that it is proved is all that it is for.
ghost use Rattle.pc_check.specs.Laws.{StatementsKeepTheirSizes, ProgramsKeepTheirSizes};

/// To put numbers for names changes no size.
pub fn laws_of_resolved_programs()
    ensures statements { StatementsKeepTheirSizes }
    ensures programs { ProgramsKeepTheirSizes }
{}
