//! Laws of searches. No function here does anything: each one's contract is a law, and that it is
//! proved is all that it is for.
ghost use Rattle.pc_pattern.specs.Laws.{PatternsRunAsTheRegion, PatternsHaveNoEmptyStates, PatternsFit, PatternsAreAutomata};
ghost use Rattle.pc_pattern.specs.Laws.{PatternsNameWhatIsThere, PatternsBeginWithLiveVariables, SearchesHaveOneAnswer, SearchesAreOne, PatternsAreOne, TrapsHaveOneState};

/// The states of a closed search do what its region does and are not behind it;
/// each but the first has an item or a test; each row keeps the limits of fronts; they are those of
/// an automaton; what they name is there; and the first is passed variables that are live.
pub fn laws_of_patterns()
    ensures runs { PatternsRunAsTheRegion }
    ensures no_empty { PatternsHaveNoEmptyStates }
    ensures fit { PatternsFit }
    ensures automata { PatternsAreAutomata }
    ensures there { PatternsNameWhatIsThere }
    ensures live { PatternsBeginWithLiveVariables }
{}

/// A search has one answer: it comes to the same in as many steps, and where it closes, its states are
/// the same, names and all. From a region that is a trap alone it comes to one state.
pub fn laws_of_searches()
    ensures one_answer { SearchesHaveOneAnswer }
    ensures one_search { SearchesAreOne }
    ensures one_pattern { PatternsAreOne }
    ensures traps { TrapsHaveOneState }
{}
