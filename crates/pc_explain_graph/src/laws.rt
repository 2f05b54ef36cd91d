//! The law of graphs of explanations. The function here does nothing: its contract is the law.
ghost use Rattle.pc_explain_graph.specs.Laws.{GraphsHaveANodeForEachState};

/// A graph has a node for each state of each loop's schedule.
pub fn law_of_graphs()
    ensures { GraphsHaveANodeForEachState }
{}
