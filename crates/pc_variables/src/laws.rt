//! The law of names that hold scalars. The function here does nothing: its contract is the law, and that it is proved is all that it is
//! for.
ghost use Rattle.pc_variables.specs.Laws.{EachHasAGround, EachNameOnce};

/// Each name that is told to hold a scalar has a ground for it, and of each state each name is told once at most.
pub fn law_of_holdings()
    ensures grounds { EachHasAGround }
    ensures once { EachNameOnce }
{}
