//! What follows from the viewer's promise. No function here does anything: its contract is a law.
ghost use Rattle.pc_viewer.specs.Laws.{ViewerPromisesSay};

/// What the viewer's promise says for each status; the text of an object is sent, and other bytes are refused.
pub fn laws_of_the_viewer()
    ensures { ViewerPromisesSay }
{}
