//! The pass that propagates copies.
ghost use Rattle.std.specs.Prelude.{◌≡◌, codes};
ghost use Rattle.pc_scalar.specs.Copied.{NamesNoCopy};
ghost use Rattle.pc_scalar.specs.Leaves.{Leaves};

use crate::copying::copy_flow;
use crate::tally::Tally;
use pc_flow::Flow;
use pc_pass::{Pass, PassMemory};
use std::alloc::Global;

/// Lets what a variable was copied from stand for its name, along each chain of items.
#[derive(Drop)]
pub struct Copies {
    alloc: Global,
    tally: Tally,
}

impl Copies {
    /// The pass, which has changed nothing yet.
    pub fn new(alloc: Global) -> Copies
        ensures { result.tally ≡ record { changes = 0; runs = 0 } }
    {
        Copies {
            alloc,
            tally: Tally::new(),
        }
    }
}

impl Pass for Copies {
    ghost label = { λ it. codes "copies" };

    ghost changed = { λ it. it.tally.changes };

    ghost runs = { λ it. it.tally.runs };

    ghost does = { λ it. Leaves NamesNoCopy };

    fn name(&self) -> &str {
        "copies"
    }

    fn changes(&self) -> u64 {
        self.tally.changes
    }

    #[tactic(auto, using(crate::proofs::Tallies::leaves))]
    fn apply(&mut self, flow: &mut Flow) -> Result<(), PassMemory> {
        let nodes = copy_flow(self.alloc, flow)?;
        self.tally.add(nodes);
        Ok(())
    }
}
