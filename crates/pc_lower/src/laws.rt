//! Laws of flow graphs that implement programs. No function here does anything: each one's contract
//! is a law.
ghost use Rattle.pc_lower.specs.Laws.{LoweredRunsAgree, LoweredRunsAreFaultless, LoweredRunsKeepPace, LoweredRunsPassTheTrace};

/// Nodes that implement a program show what the program shows, for every input, pass the nodes that
/// its trace lists, and at most one more to have shown as much, and never come to a fault of the
/// machine.
pub fn laws_of_lowered_runs()
    ensures agree { LoweredRunsAgree }
    ensures faultless { LoweredRunsAreFaultless }
    ensures trace { LoweredRunsPassTheTrace }
    ensures pace { LoweredRunsKeepPace }
{}
