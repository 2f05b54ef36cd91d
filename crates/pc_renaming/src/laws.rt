//! Laws of renamed codes. The function here does nothing: its contract is the laws, and that it is
//! proved is all that it is for.
ghost use Rattle.pc_renaming.specs.Laws.{RenamingKeepsTheRun, RenamingKeepsForm, FormKeepsRegisters};

/// A renamed code runs as the code before, and is well formed where that was; and a well-formed code meets the premises of
/// `exact` of `is_renaming` that are about the code before.
pub fn laws_of_renaming()
    ensures runs { RenamingKeepsTheRun }
    ensures form { RenamingKeepsForm }
    ensures registers { FormKeepsRegisters }
{}
