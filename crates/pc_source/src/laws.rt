//! Laws of texts, and of what is read of them. No function here does anything: each one's contract is its laws,
//! and that they are proved is all that it is for.
ghost use Rattle.pc_source.specs.Laws.{AFaultyTextIsNoSource, ALargeTextIsRefused, ASmallTextIsASource, ATextIsReadOnce};
ghost use Rattle.pc_source.specs.Laws.{AgreementWithTheProgramIsEnough, CheckedTextsRunAsTheyMean};

/// A text is read as one translation unit at most, and with a fault it is no source.
pub fn laws_of_sources()
    ensures once { ATextIsReadOnce }
    ensures faulty { AFaultyTextIsNoSource }
{}

/// The program that a text is read as shows what the text means, so what agrees with the one agrees with the other. Where
/// its flow graph has no more nodes than it may, the text is a source, and else its fault is that it is too large.
pub fn laws_of_checked_texts()
    ensures runs { CheckedTextsRunAsTheyMean }
    ensures enough { AgreementWithTheProgramIsEnough }
    ensures small { ASmallTextIsASource }
    ensures large { ALargeTextIsRefused }
{}
