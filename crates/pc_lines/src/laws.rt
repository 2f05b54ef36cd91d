//! The law of lines. The function here does nothing: its contract is the law, and that it is proved is all that it is for.
ghost use Rattle.pc_lines.specs.Laws.{EachNodeHasALine};

/// Each node of a program's flow graph but its end has a line.
#[tactic(auto, using(crate::proofs::Sizes::lines))]
pub fn law_of_lines()
    ensures { EachNodeHasALine }
{}
