//! Laws of the definitions that contracts speak of. No function here does anything: each one's
//! contract is a law, and that it is proved is all that it is for.
ghost use Rattle.pc_word.specs.Laws.{WordsGiveWords, BelowIsTheOrderModulo, DivisionHasItsRemainder, AgreementIsReflexive, AgreementIsSymmetric};
ghost use Rattle.pc_word.specs.Laws.{AgreementIsTransitive, AgreeingRunsEndAlike, AnEndedRunIsItsEnd, TextReadsBack, WhatIsReadAreWords};
ghost use Rattle.pc_word.specs.Laws.{AnItemAloneDoesItsKind};

/// Words are closed under their operators, `below` is the order of unsigned numbers, and quotients
/// have their remainders (C17 6.5.5, 6).
pub fn laws_of_words()
    ensures closed { WordsGiveWords }
    ensures below { BelowIsTheOrderModulo }
    ensures division { DivisionHasItsRemainder }
{}

/// Agreement of runs is an equivalence, under which ends are kept.
pub fn laws_of_agreement()
    ensures reflexive { AgreementIsReflexive }
    ensures symmetric { AgreementIsSymmetric }
    ensures transitive { AgreementIsTransitive }
    ensures ends { AgreeingRunsEndAlike }
    ensures ended { AnEndedRunIsItsEnd }
{}

/// What a program prints can be read back, and what is read are words.
pub fn laws_of_number_texts()
    ensures reads_back { TextReadsBack }
    ensures words { WhatIsReadAreWords }
{}

/// An item by itself, the row of that item alone, does what its kind says.
pub fn law_of_single_items()
    ensures kinds { AnItemAloneDoesItsKind }
{}
