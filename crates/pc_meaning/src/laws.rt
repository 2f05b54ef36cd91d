//! Laws of what a source program means. No function here does anything: each one's contract is a
//! law, and that it is proved is all that it is for.
ghost use Rattle.pc_meaning.specs.Laws.{SourceRunsGrow, SourceRunsAreFaultless, LoopsEndByTheirTurns, ExpressionsOnlyRead, TracesCountPrints, TracesCountReads};
ghost use Rattle.pc_meaning.specs.Laws.{UnaryOperatorsAreLowered, BinaryOperatorsAreLowered, BoundsAreTestedByBelow, TruthIsUnequalToZero};

/// What a source program shows is a run: with more turns it has printed no less, and an end stays.
/// It never ends in a fault of the machine, and loops are ended by their conditions, jumps, traps and
/// turns alone. An expression changes nothing but the input.
pub fn laws_of_source_runs()
    ensures grows { SourceRunsGrow }
    ensures faultless { SourceRunsAreFaultless }
    ensures turns { LoopsEndByTheirTurns }
    ensures expressions { ExpressionsOnlyRead }
{}

/// What a program passes has a print for each number that it prints, and a read for each that it takes.
pub fn laws_of_traces()
    ensures prints { TracesCountPrints }
    ensures reads { TracesCountReads }
{}

/// The operators of the machine to which the language's operators and tests are lowered give their
/// values.
pub fn laws_of_lowered_operators()
    ensures unary { UnaryOperatorsAreLowered }
    ensures binary { BinaryOperatorsAreLowered }
    ensures bounds { BoundsAreTestedByBelow }
    ensures truth { TruthIsUnequalToZero }
{}
