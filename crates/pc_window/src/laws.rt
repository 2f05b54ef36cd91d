//! Laws of windows. No function here does anything: each one's contract is a law, and that it is
//! proved is all that it is for.
ghost use Rattle.pc_window.specs.Laws.{OpenedWindowsRunAsTheirRegion, OpenedWindowsAreProper, UnwindingKeeps, UnwindingHasOneEnd, TidyingKeeps, TidyingKeepsTheWalk, TidiedTreesAreTidy};
ghost use Rattle.pc_window.specs.Laws.{TidiedWindowsAreRooted, RebasingKeeps, FillingKeeps, FillingKeepsTheWalk, FillingHasOneEnd, FilledFrontsHaveItems, JumpsFillTheFront, FillingIsBounded};
ghost use Rattle.pc_window.specs.Laws.{RowsDoWhatTheirPathsDo, CutPartsAreProper, CutsKeep, CutRowsHaveItems, FilledRowsKeep, RowsAreLegal, ReadyJumps, JumpsWereReady};
ghost use Rattle.pc_window.specs.Laws.{FirstJumpsAreFirst, MovesKeep, ProperWindowsHaveFreshNames, BareWindowsAreUntested, OpenedPartsAreThere};
ghost use Rattle.pc_window.specs.Laws.{OpenedParametersAreLive};
ghost use Rattle.pc_window.specs.Laws.{TidiedPartsAreThere, TidyingAddsNoParameter, RebasedPartsAreThere, FilledPartsAreThere, CutPartsAreThere};

/// From every state an opened window runs as its region does and is not behind it, and its forms
/// hold; it is proper. Where it comes to nothing but a stub, its region leads there without a test.
pub fn laws_of_opening()
    ensures runs { OpenedWindowsRunAsTheirRegion }
    ensures bare { BareWindowsAreUntested }
    ensures proper { OpenedWindowsAreProper }
{}

/// Unwinding, tidying and rebasing keep a window's run, its pace, its forms, and that it is
/// proper. Tidying keeps the walk on each state on which the walk itself is no fault. Unwinding has
/// one end, and what is tidied has nothing more to delete.
pub fn laws_of_settling()
    ensures unwinding { UnwindingKeeps }
    ensures one_end { UnwindingHasOneEnd }
    ensures tidying { TidyingKeeps }
    ensures tidying_walk { TidyingKeepsTheWalk }
    ensures tidy { TidiedTreesAreTidy }
    ensures rooted { TidiedWindowsAreRooted }
    ensures rebasing { RebasingKeeps }
{}

/// Filling keeps what a window does, its pace, its forms, and that it is proper, and the walk on
/// each state on which the walk itself is no fault. It has one end: each jump makes the front greater
/// by one, and below each leaf stands no more than stood below one before.
pub fn laws_of_filling()
    ensures keeps { FillingKeeps }
    ensures walk { FillingKeepsTheWalk }
    ensures one_end { FillingHasOneEnd }
    ensures front { FilledFrontsHaveItems }
    ensures jumps { JumpsFillTheFront }
    ensures bounded { FillingIsBounded }
{}

/// The row of a front does at once what its path does in order, and each part of a cut goes on as
/// the window does. A row keeps the machine's rules for rows.
pub fn laws_of_cutting()
    ensures rows { RowsDoWhatTheirPathsDo }
    ensures proper { CutPartsAreProper }
    ensures keeps { CutsKeep }
    ensures items { CutRowsHaveItems }
    ensures filled { FilledRowsKeep }
    ensures legal { RowsAreLegal }
{}

/// The arrays and stubs that a window names are there in its table: this is so of an opened window,
/// whose parameters are live at its region's head, and of what is tidied, rebased, filled and cut.
pub fn laws_of_tables()
    ensures opened { OpenedPartsAreThere }
    ensures live { OpenedParametersAreLive }
    ensures tidied { TidiedPartsAreThere }
    ensures fewer { TidyingAddsNoParameter }
    ensures rebased { RebasedPartsAreThere }
    ensures filled { FilledPartsAreThere }
    ensures cut { CutPartsAreThere }
{}

/// A proper window has fresh names; what is ready and has room can jump, and nothing else does; the first jump brings what is first
/// in the order. A move anywhere in a window keeps its walk, its forms and its names.
pub fn laws_of_moves()
    ensures fresh { ProperWindowsHaveFreshNames }
    ensures ready { ReadyJumps }
    ensures only_ready { JumpsWereReady }
    ensures first { FirstJumpsAreFirst }
    ensures moves { MovesKeep }
{}
