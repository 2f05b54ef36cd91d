//! Laws of tightening. No function here does anything: each one's contract is a law, and that it is
//! proved is all that it is for.
ghost use Rattle.pc_tighten.specs.Laws.{TighteningKeepsForm, TighteningIsNoSlower, TighteningTakesNoMoreRoom, TighteningKeepsRowsReachable};
ghost use Rattle.pc_tighten.specs.Laws.{CompactWhereNoneMayMove, RemovalsKeepCompact, MarkedRowsGo, NoGotoIsLeft};

/// Moves and removals keep a code's form, meaning and pace, take no more room and keep rows reachable.
pub fn laws_of_tightening()
    ensures form { TighteningKeepsForm }
    ensures no_slower { TighteningIsNoSlower }
    ensures room { TighteningTakesNoMoreRoom }
    ensures reachable { TighteningKeepsRowsReachable }
{}

/// Where no move is left a code is compact, and where all its rows are reachable a removal leaves it so.
pub fn laws_of_compact_codes()
    ensures none_may_move { CompactWhereNoneMayMove }
    ensures removals { RemovalsKeepCompact }
{}

/// Rows that are a goto alone go in rounds: those that lead further down, or to a row that stays, go at once,
/// and where none is left to go, none is a goto alone to another row.
pub fn laws_of_removals()
    ensures at_once { MarkedRowsGo }
    ensures none_left { NoGotoIsLeft }
{}
