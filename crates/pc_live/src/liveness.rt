//! The answer of the analysis.
ghost use Rattle.std.specs.Prelude.{◌≡◌, ◌↔◌, ◌<◌, true, length};
ghost use Rattle.pc_flow.specs.FlowGraph.{FlowGraph, variables};
ghost use Rattle.pc_live.specs.Live.{IsLive};
ghost use Rattle.pc_live.specs.Liveness.{member, set_at, IsLivenessOf};

use crate::variable_set::VariableSet;
use std::marker::Model;

/// The variables that are live at each node of a flow graph, as `live` found them.
///
/// It speaks of the graph as that was when `live` was called.
#[derive(Debug, Drop)]
pub struct Liveness {
    sets: Vec<VariableSet>,
}

impl Model for Liveness {
    ghost use Rattle.std.specs.Prelude.{List};
    ghost use Rattle.std.specs.Coded.{codes};
    ghost use Rattle.pc_live.specs.declared.variable_set.VariableSet.{VariableSet};

    ghost Value = { List VariableSet };

    ghost coded = { Prim.hlevel codes };

    ghost view = { λ it. it.sets.items };
}

impl Liveness {
    /// The liveness that these sets tell, one for each node.
    pub(crate) fn new(sets: Vec<VariableSet>) -> Liveness
        ensures { result ≡ sets.items }
    {
        Liveness { sets }
    }

    /// Whether a variable is live at a node: whether some path of the graph from that node on reads
    /// it before it writes it. The node's own item or test counts: it reads before it writes.
    pub fn live_at(&self, node: u32, variable: u32) -> bool
        requires node { node < length self.now }
        requires variable { variable < variables }
        ensures told { result ≡ member (set_at self.now node) variable }
        ensures exact { (flow : FlowGraph) → IsLivenessOf flow self.now → (result ≡ true) ↔ IsLive flow variable node }
    {
        self.sets[node as usize].contains(variable)
    }
}
