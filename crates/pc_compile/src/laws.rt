//! Laws of chosen forms and of pace. No function here does anything: each one's contract is its laws, and that
//! they are proved is all that it is for.
ghost use Rattle.pc_compile.specs.Laws.{ChosenFormsMayBeEmitted, ATableHasOneAnswer};
ghost use Rattle.std.specs.Prelude.{List};
ghost use Rattle.pc_pass.specs.Pass.{Chain};
ghost use Rattle.pc_compile.specs.Laws.{RegionsKeepPaceWithTheSource, SchedulesKeepPaceWithTheRegions, EmittedRowsKeepPace};
ghost use Rattle.pc_compile.specs.Laws.{RecoloredCodesKeepPace, TightenedCodesKeepPace};
ghost use Rattle.pc_compile.specs.Laws.{StepsCostFewCycles, MostAreEnough, ObjectsKeepPaceWithTheSource, ObjectsKeepPaceInCycles};

use pc_pass::Pass;

/// Forms that were chosen may be emitted, and each is one that its region may have.
pub fn law_of_chosen_forms()
    ensures { ChosenFormsMayBeEmitted }
{}

/// A table has one answer: within the same limits, all choices and forms that may be given for it are the
/// same.
pub fn law_of_choices()
    ensures { ATableHasOneAnswer }
{}

/// The regions of a compiled program show what its source shows, after as many items and tests as the
/// source's evaluation passes and one unit more. The schedule of their forms shows, in as many steps,
/// at least what they show, and n steps cost fewer than twice as many cycles n times, and one more, as registers are
/// enough for the forms, which the most always are. Emitted rows show, in as many cycles as
/// the schedule may cost, at least what the schedule shows; so does a code after its registers were chosen
/// anew, and after its tightening.
pub fn laws_of_pace()
    ensures regions { RegionsKeepPaceWithTheSource }
    ensures schedules { SchedulesKeepPaceWithTheRegions }
    ensures costs { StepsCostFewCycles }
    ensures enough { MostAreEnough }
    ensures emitted { EmittedRowsKeepPace }
    ensures recolored { RecoloredCodesKeepPace }
    ensures tightened { TightenedCodesKeepPace }
{}

/// The object of a program keeps pace with its source, whatever passes were applied: by what the steps of
/// its schedule may cost, and in plain numbers.
pub fn law_of_objects<P: Pass>()
    ensures steps { (before after : List P) → ObjectsKeepPaceWithTheSource (Chain P.does P.changed before after) }
    ensures cycles { (before after : List P) → ObjectsKeepPaceInCycles (Chain P.does P.changed before after) }
{}
