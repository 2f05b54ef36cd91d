//! Laws of arranging. The function does nothing: its contract is the laws, and that it is proved is
//! all that it is for.
ghost use Rattle.pc_arranging.specs.Laws.{ArrangingChanges, ArrangedIsProper, ArrangedOnce};

/// Steps arrange a proper window by changes of which each is legal, to a proper window, and in one way
/// at most.
pub fn laws_of_arranging()
    ensures changes { ArrangingChanges }
    ensures proper { ArrangedIsProper }
    ensures once { ArrangedOnce }
{}
