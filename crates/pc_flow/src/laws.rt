//! Laws of the definitions. No function here does anything: each one's contract is a law.
ghost use Rattle.pc_flow.specs.Laws.{FlowRunsGrow, RanksFall};

/// A graph's runs only grow, stay among its nodes, and pass the test of a loop in each cycle.
pub fn laws_of_flows()
    ensures grow { FlowRunsGrow }
    ensures fall { RanksFall }
{}
