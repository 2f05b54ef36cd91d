//! A law of webs. The function here does nothing: its contract is the law, and that it is proved is all that it is for.
ghost use Rattle.pc_settled.specs.Laws.{AWebHasOneRegister};

/// All values of a web have one register: so a copy between two registers is one between two webs.
#[tactic(auto, using(crate::proofs::Webs::one_register))]
pub fn law_of_webs()
    ensures { AWebHasOneRegister }
{}
