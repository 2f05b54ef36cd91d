//! Laws of certificates, and examples. No function here does anything: each one's contract is a
//! law, and that it is proved is all that it is for.
ghost use Rattle.pc_certified.specs.Laws.{FillingIsMadeOfMoves, JumpsAreMoves, ShownCodesAgree, ShownCodesAgreeOnInputs};
ghost use Rattle.pc_certified.specs.PipelinedExample.{PipelinedIsShown};
ghost use Rattle.pc_certified.specs.Examples.{EarlyIsShown, EnteringIsShown, LoopIsShown, PairIsShown, PrintingIsShown, RootIsShown, TestedIsShown};

/// Where claims show it, a code does what a table of regions does, in both directions, on each input
/// on which the table never faults; so a well-formed code does it on every input of words, where the
/// table faults on none of them.
pub fn law_of_certificates()
    ensures agree { ShownCodesAgree }
    ensures on_inputs { ShownCodesAgreeOnInputs }
{}

/// Where an item or test comes up into a window's front as in filling, that is one of the changes by
/// which a claim's window may be brought to its row; so filling is a chain of them.
pub fn laws_of_moves()
    ensures jumps { JumpsAreMoves }
    ensures filling { FillingIsMadeOfMoves }
{}

/// Some codes are shown, so that the definitions are not empty: one that prints; a loop of one row
/// that never ends; a row of two items of which one has moved; a row that leaves its window's root
/// to the next row; a loop whose first iteration prints a literal where the others print a register;
/// two rows of which the first has an item of the region behind them, the second time from behind a
/// test; and a pipelined loop, whose row prints in one iteration and adds for the next.
pub fn examples_of_certificates()
    ensures printing { PrintingIsShown }
    ensures looping { LoopIsShown }
    ensures pair { PairIsShown }
    ensures root { RootIsShown }
    ensures entering { EnteringIsShown }
    ensures early { EarlyIsShown }
    ensures tested { TestedIsShown }
    ensures pipelined { PipelinedIsShown }
{}
