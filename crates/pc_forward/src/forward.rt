//! The pass that forwards stored and loaded values to loads.
ghost use Rattle.std.specs.Prelude.{◌≡◌, codes};
ghost use Rattle.pc_forward.specs.Forwarded.{Forwards};

use crate::forwarding::forward_flow;
use pc_flow::Flow;
use pc_pass::{Pass, PassMemory};
use pc_scalar::Tally;
use std::alloc::Global;

/// Lets a copy stand for each load of an element whose value is known along the trail to it, and still held by a variable or a
/// constant: the element was stored or loaded before, and nothing was stored since that may be to the same place. Indexes are
/// compared as linear forms modulo 2^32.
///
/// Each trail is walked once, with the forms of variables at hand. A load looks back over the accesses of its trail up to the one
/// that decides. Behind a test of which both sides go on, what is known is copied for one.
#[derive(Drop)]
pub struct Forward {
    alloc: Global,
    tally: Tally,
}

impl Forward {
    /// The pass, which has changed nothing yet.
    pub fn new(alloc: Global) -> Forward
        ensures { result.tally ≡ record { changes = 0; runs = 0 } }
    {
        Forward {
            alloc,
            tally: Tally::new(),
        }
    }
}

impl Pass for Forward {
    ghost label = { λ it. codes "forward" };

    ghost changed = { λ it. it.tally.changes };

    ghost runs = { λ it. it.tally.runs };

    ghost does = { λ it. Forwards };

    fn name(&self) -> &str {
        "forward"
    }

    fn changes(&self) -> u64 {
        self.tally.changes
    }

    #[tactic(auto, using(crate::proofs::Forwardings::forwards))]
    fn apply(&mut self, flow: &mut Flow) -> Result<(), PassMemory> {
        let nodes = forward_flow(self.alloc, flow)?;
        self.tally.add(nodes);
        Ok(())
    }
}
