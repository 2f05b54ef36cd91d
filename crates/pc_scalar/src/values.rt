//! The pass that reuses values.
ghost use Rattle.std.specs.Prelude.{◌≡◌, codes};
ghost use Rattle.pc_scalar.specs.Valued.{ComputesNoneAgain};
ghost use Rattle.pc_scalar.specs.Leaves.{Leaves};

use crate::tally::Tally;
use crate::valuing::value_flow;
use pc_flow::Flow;
use pc_pass::{Pass, PassMemory};
use std::alloc::Global;

/// Lets a copy stand for each item that computes what a variable already holds, along each chain of items.
#[derive(Drop)]
pub struct Values {
    alloc: Global,
    tally: Tally,
}

impl Values {
    /// The pass, which has changed nothing yet.
    pub fn new(alloc: Global) -> Values
        ensures { result.tally ≡ record { changes = 0; runs = 0 } }
    {
        Values {
            alloc,
            tally: Tally::new(),
        }
    }
}

impl Pass for Values {
    ghost label = { λ it. codes "values" };

    ghost changed = { λ it. it.tally.changes };

    ghost runs = { λ it. it.tally.runs };

    ghost does = { λ it. Leaves ComputesNoneAgain };

    fn name(&self) -> &str {
        "values"
    }

    fn changes(&self) -> u64 {
        self.tally.changes
    }

    #[tactic(auto, using(crate::proofs::Tallies::leaves))]
    fn apply(&mut self, flow: &mut Flow) -> Result<(), PassMemory> {
        let nodes = value_flow(self.alloc, flow)?;
        self.tally.add(nodes);
        Ok(())
    }
}
