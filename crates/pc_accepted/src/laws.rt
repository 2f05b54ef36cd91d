//! What follows where a certificate is accepted. No function here does anything: each one's contract is a law,
//! and that it is proved is all that it is for.
ghost use Rattle.pc_accepted.specs.Laws.{AcceptedCodesAreShown, AcceptedCodesAgree, OneAnswer};

/// A code whose certificate is accepted is shown by claims, so it agrees with the table of regions on every input of
/// words.
pub fn law_of_accepted_codes()
    ensures shown { AcceptedCodesAreShown }
    ensures agree { AcceptedCodesAgree }
{}

/// A certificate is accepted, or refused at one entry for one reason.
pub fn law_of_answers()
    ensures { OneAnswer }
{}
