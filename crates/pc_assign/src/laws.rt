//! Laws of registers that are given by the rule. No function here does anything: its contract is the
//! law.
ghost use Rattle.pc_assign.specs.Apart.{LiveApart, VariablesStay, OnlyOne};

/// Names that are live together have different registers, all allowed, and the parameters of the
/// first state are in the registers of their numbers.
pub fn law_of_live_names()
    ensures apart { LiveApart }
    ensures variables { VariablesStay }
{}

/// The rule leaves no choice.
pub fn law_of_one_rule()
    ensures { OnlyOne }
{}
