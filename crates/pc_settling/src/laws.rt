//! Laws of what is left at a leaf. No function here does anything: each one's contract is a law, and that
//! it is proved is all that it is for.
ghost use Rattle.pc_settling.specs.Laws.{ListedAfterCopyHold, AllAfterCopyAreListed, ListedInRegionHold, AllInRegionAreListed, ListedAtStartHold, AllAtStartAreListed};
ghost use Rattle.pc_settling.specs.Laws.{SettledIsDone, SettledAgrees, SettledAgreesInRegion, EndsAgree};
ghost use Rattle.pc_settling.specs.Laws.{OneBeginning, BegunAgrees, EnteredAgrees, BegunAgreesInRegion};
ghost use Rattle.pc_settling.specs.Laws.{FoundArrivals, FoundProgress, LeavesLeadOn, RegionsLeadOn};

/// The facts after a Copy, those in a region that is entered, and those at the start, are facts that hold
/// there, and all of those.
pub fn laws_of_facts()
    ensures after_copy { ListedAfterCopyHold }
    ensures all_after_copy { AllAfterCopyAreListed }
    ensures in_region { ListedInRegionHold }
    ensures all_in_region { AllInRegionAreListed }
    ensures at_start { ListedAtStartHold }
    ensures all_at_start { AllAtStartAreListed }
{}

/// In what is settled nothing may go. Where what is left, settled, agrees with a leaf, it does as it was
/// left; so it does where it ends as the leaf does.
pub fn laws_of_settling()
    ensures done { SettledIsDone }
    ensures agrees { SettledAgrees }
    ensures in_region { SettledAgreesInRegion }
    ensures ends { EndsAgree }
{}

/// An entry begins with one window at most; and where that agrees with a leaf, so does what was left.
pub fn laws_of_beginning()
    ensures one { OneBeginning }
    ensures agrees { BegunAgrees }
    ensures entered { EnteredAgrees }
    ensures in_region { BegunAgreesInRegion }
{}

/// What is found to arrive arrives, and progress is found exactly where it is made.
pub fn laws_of_arriving()
    ensures arrivals { FoundArrivals }
    ensures progress { FoundProgress }
{}

/// So what is left agrees with a leaf that leads to a claim's row, where it is settled, the claim's entry
/// begins with it, and that arrives at the claim with progress.
pub fn laws_of_leaves()
    ensures leaves { LeavesLeadOn }
    ensures regions { RegionsLeadOn }
{}
