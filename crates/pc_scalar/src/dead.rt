//! The pass that removes dead writes.
ghost use Rattle.std.specs.Prelude.{◌≡◌, codes};
ghost use Rattle.pc_scalar.specs.Cleared.{WritesAreLive};
ghost use Rattle.pc_scalar.specs.Leaves.{Leaves};

use crate::clearing::clear_flow;
use crate::tally::Tally;
use pc_flow::Flow;
use pc_pass::{Pass, PassMemory};
use std::alloc::Global;

/// Skips each item that only writes a variable that is not live after it.
#[derive(Drop)]
pub struct Dead {
    alloc: Global,
    tally: Tally,
}

impl Dead {
    /// The pass, which has changed nothing yet.
    pub fn new(alloc: Global) -> Dead
        ensures { result.tally ≡ record { changes = 0; runs = 0 } }
    {
        Dead {
            alloc,
            tally: Tally::new(),
        }
    }
}

impl Pass for Dead {
    ghost label = { λ it. codes "dead" };

    ghost changed = { λ it. it.tally.changes };

    ghost runs = { λ it. it.tally.runs };

    ghost does = { λ it. Leaves WritesAreLive };

    fn name(&self) -> &str {
        "dead"
    }

    fn changes(&self) -> u64 {
        self.tally.changes
    }

    #[tactic(auto, using(crate::proofs::Tallies::leaves))]
    fn apply(&mut self, flow: &mut Flow) -> Result<(), PassMemory> {
        let nodes = clear_flow(self.alloc, flow)?;
        self.tally.add(nodes);
        Ok(())
    }
}
