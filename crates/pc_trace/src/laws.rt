//! Laws of traces. No function here does anything: each one's contract is a law.
ghost use Rattle.pc_trace.specs.Laws.{TracesAreRuns};

/// A trace has each cycle of the run once, its prints are the run's, and its last cycle alone tells the end.
pub fn laws_of_traces()
    ensures { TracesAreRuns }
{}
