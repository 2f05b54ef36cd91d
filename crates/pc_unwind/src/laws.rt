//! Laws of unwinding. No function here does anything: each one's contract is a law.
ghost use Rattle.pc_unwind.specs.Laws.{OpenedWindowsCanUnwind};

/// A window that was just opened may be unwound.
pub fn laws_of_unwinding()
    ensures { OpenedWindowsCanUnwind }
{}
