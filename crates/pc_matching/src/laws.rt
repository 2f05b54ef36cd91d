//! Laws of matching. No function here does anything: each one's contract is a law, and that it is
//! proved is all that it is for.
ghost use Rattle.std.specs.Prelude.{List};
ghost use Rattle.pc_certified.specs.Facts.{Fact};
ghost use Rattle.pc_matching.specs.Examples.{ExchangedPrintsAreNotFound, PrintingRowIsFound};
ghost use Rattle.pc_matching.specs.Laws.{AllFactsAreListed, EachLeafHasFacts, FoundEffectsMatch, FoundRowsMatch, FoundRowsOfClaimsMatch, ListedFactsHold};

/// What is to hold of the facts at a leaf of a row, that leaf, and a leaf of a front.
pub trait LeafRelation<L, M> {
    ghost agrees: { List Fact → L → M → Type 0 };
}

/// Paths whose stores, prints and reads are found to match match.
pub fn law_of_effects()
    ensures { FoundEffectsMatch }
{}

/// The facts after two paths are those that hold after them, and all of those.
pub fn laws_of_facts()
    ensures hold { ListedFactsHold }
    ensures all { AllFactsAreListed }
{}

/// A row that is found to match a front matches it, whatever is to hold at the leaves, if it follows
/// from the facts that are found there; and facts are found for each leaf of both.
pub fn laws_of_rows<L, M, R: LeafRelation<L, M>>()
    ensures rows { FoundRowsMatch L M R.agrees }
    ensures leaves { EachLeafHasFacts L M }
{}

/// So the row of a claim matches the front of the claim's window, where a checker finds that it does
/// and sees each leaf agree with what is left there, from the facts that are found.
pub fn law_of_claims()
    ensures { FoundRowsOfClaimsMatch }
{}

/// A row of a pipelined loop is found to match its front, with the facts at both leaves; and one that
/// prints in another order than its front is not.
pub fn examples_of_matching()
    ensures found { PrintingRowIsFound }
    ensures exchanged { ExchangedPrintsAreNotFound }
{}
