//! The law of filling. The function does nothing: its contract is the law.
ghost use Rattle.pc_fill.specs.Laws.{OpenedWindowsCanBeFilled};

/// A window that was just opened can be filled.
pub fn law_of_opened_windows()
    ensures { OpenedWindowsCanBeFilled }
{}
