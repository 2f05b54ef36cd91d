//! Laws of regions that programs are cut into. The function here does nothing: its contract is its laws, and that they are
//! proved is all that it is for.
ghost use Rattle.std.specs.Prelude.{List};
ghost use Rattle.pc_middle.specs.Laws.{RegionsDoWhatTheProgramDoes, RegionsNeverFault};
ghost use Rattle.pc_pass.specs.Pass.{Chain};

use pc_pass::Pass;

/// The regions that a program is cut into do what the program does, for every input of words, whatever passes were
/// applied, and never come to a fault of the machine.
pub fn laws_of_cut_programs<P: Pass>()
    ensures agree { (before after : List P) → RegionsDoWhatTheProgramDoes (Chain P.does P.changed before after) }
    ensures faultless { (before after : List P) → RegionsNeverFault (Chain P.does P.changed before after) }
{}
