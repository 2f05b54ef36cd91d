//! A law of the passes together. The function here does nothing: its contract is the law.
ghost use Rattle.std.specs.Prelude.{List, map};
ghost use Rattle.pc_flow.specs.FlowGraph.{FlowGraph};
ghost use Rattle.pc_pass.specs.Pass.{Chain};
ghost use Rattle.pc_passes.specs.Passes.{AreThePasses, IsMadeByThePasses};

use pc_pass::Pass;

/// What the passes make of a graph, one after another, and what their counts are then.
pub fn law_of_the_passes<P: Pass>()
    ensures { (before after : List P) (first last : FlowGraph) → AreThePasses P.label P.changed P.does before
        → Chain P.does P.changed before after first last → IsMadeByThePasses first last (map P.changed after) }
{}
