//! The pass that folds constants.
ghost use Rattle.std.specs.Prelude.{◌≡◌, codes};
ghost use Rattle.pc_scalar.specs.Folded.{IsFolded};
ghost use Rattle.pc_scalar.specs.Leaves.{Leaves};

use crate::folding::fold_flow;
use crate::tally::Tally;
use pc_flow::Flow;
use pc_pass::{Pass, PassMemory};
use std::alloc::Global;

/// Lets a copy of its value stand for each item of two literals, and skips each test of a literal
/// that is no loop's test.
#[derive(Drop)]
pub struct Fold {
    alloc: Global,
    tally: Tally,
}

impl Fold {
    /// The pass, which has changed nothing yet.
    pub fn new(alloc: Global) -> Fold
        ensures { result.tally ≡ record { changes = 0; runs = 0 } }
    {
        Fold {
            alloc,
            tally: Tally::new(),
        }
    }
}

impl Pass for Fold {
    ghost label = { λ it. codes "fold" };

    ghost changed = { λ it. it.tally.changes };

    ghost runs = { λ it. it.tally.runs };

    ghost does = { λ it. Leaves IsFolded };

    fn name(&self) -> &str {
        "fold"
    }

    fn changes(&self) -> u64 {
        self.tally.changes
    }

    #[tactic(auto, using(crate::proofs::Tallies::leaves))]
    fn apply(&mut self, flow: &mut Flow) -> Result<(), PassMemory> {
        let nodes = fold_flow(self.alloc, flow)?;
        self.tally.add(nodes);
        Ok(())
    }
}
