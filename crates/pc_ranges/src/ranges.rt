//! The pass that decides tests by intervals.
ghost use Rattle.std.specs.Prelude.{◌≡◌, codes};
ghost use Rattle.pc_ranges.specs.Ranged.{LeavesRanged};

use crate::rewriting::range_flow;
use pc_flow::Flow;
use pc_pass::{Pass, PassMemory};
use pc_scalar::Tally;
use std::alloc::Global;

/// Lets a copy of its word stand for each item whose operator can only give one, and a literal for
/// each variable that can only have one, and skips each test that is decided and no loop's, as far
/// as an interval for each variable at each node tells.
///
/// The intervals are found by sweeps over the graph and then checked; where that fails, those of
/// literals alone are used. A pass over 16,384 nodes takes some 13 MB.
#[derive(Drop)]
pub struct Ranges {
    alloc: Global,
    tally: Tally,
}

impl Ranges {
    /// The pass, which has changed nothing yet.
    pub fn new(alloc: Global) -> Ranges
        ensures { result.tally ≡ record { changes = 0; runs = 0 } }
    {
        Ranges {
            alloc,
            tally: Tally::new(),
        }
    }
}

impl Pass for Ranges {
    ghost label = { λ it. codes "ranges" };

    ghost changed = { λ it. it.tally.changes };

    ghost runs = { λ it. it.tally.runs };

    ghost does = { λ it. LeavesRanged };

    fn name(&self) -> &str {
        "ranges"
    }

    fn changes(&self) -> u64 {
        self.tally.changes
    }

    #[tactic(auto, using(pc_scalar::proofs::Tallies::leaves))]
    fn apply(&mut self, flow: &mut Flow) -> Result<(), PassMemory> {
        let nodes = range_flow(self.alloc, flow)?;
        self.tally.add(nodes);
        Ok(())
    }
}
