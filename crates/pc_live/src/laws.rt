//! A law of the definitions. No function here does anything: its contract is the law.
ghost use Rattle.pc_live.specs.Laws.{DeadVariablesDoNotMatter, AlikeStaysAlike};

/// What a graph does from a node on does not depend on the variables that are not live there.
pub fn law_of_dead_variables()
    ensures unit { AlikeStaysAlike }
    ensures run { DeadVariablesDoNotMatter }
{}
