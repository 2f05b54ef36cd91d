//! How few rows once round a cycle can take.
ghost use Rattle.std.specs.Prelude.{◌≡◌};
ghost use Rattle.pc_cycles.specs.Bounds.{chain_bound, recurrence_bound, cycle_bound};

use crate::chain::Chain;
use crate::cycle::Cycle;

impl Chain {
    /// The least number of rows for its items, once round: the items divided by the rounds, rounded up.
    pub fn bound(&self) -> u32
        ensures { result ≡ chain_bound self.now }
    {
        self.items.div_ceil(self.rounds.max(1))
    }
}

impl Cycle {
    /// The least number of rows for once round: the greater of the least number that has room for what stands there and of the
    /// bound of its chain, if it has one.
    pub fn bound(&self) -> u32
        ensures { result ≡ cycle_bound self.now }
    {
        self.least_rows.max(recurrence_bound(&self.chain))
    }
}

/// The least number of rows for the items of a chain, if there is one.
fn recurrence_bound(chain: &Option<Chain>) -> u32
    ensures { result ≡ recurrence_bound chain.now }
{
    match chain {
        None => 0,
        Some(chain) => chain.bound(),
    }
}
