//! Laws of the texts. No function here does anything: each one's contract is a law.
ghost use Rattle.pc_stat.specs.Laws.{BusiestAreMost};

/// The busiest rows are at most ten that ran, those that ran more often first; each other row that ran comes after ten of
/// them.
pub fn laws_of_busiest_rows()
    ensures { BusiestAreMost }
{}
