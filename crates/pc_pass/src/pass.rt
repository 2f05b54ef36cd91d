//! What a pass is.
ghost use Rattle.std.specs.Prelude.{◌≡◌, ◌≤◌, ℕ, List, OnOk, OnErr};
ghost use Rattle.pc_flow.specs.FlowGraph.{FlowGraph};
ghost use Rattle.pc_pass.specs.Pass.{Keeps};
ghost use Rattle.pc_word.specs.Count.{Rose};

use crate::PassMemory;
use pc_flow::Flow;

/// A change of flow graphs that keeps what they show and makes none slower.
///
/// A pass keeps the allocator that it needs. Its counts are u64, never fall, and stand still at the
/// type's end.
pub trait Pass: Drop {
    /// The bytes of its name.
    ghost label: { Self → List ℕ };

    /// How many nodes it has changed or skipped so far.
    ghost changed: { Self → ℕ };

    /// How many times it has come to its end.
    ghost runs: { Self → ℕ };

    /// What it does where it is applied: the graph before and after, and how many nodes it has changed
    /// or skipped by then.
    ghost does: { Self → FlowGraph → FlowGraph → ℕ → ℕ → Type 0 };

    /// The name by which reports call it, the same at every call.
    fn name(&self) -> &str
        ensures { result.now ≡ label self.now };

    /// How many nodes it has changed or skipped so far.
    fn changes(&self) -> u64
        ensures { result ≡ changed self.now };

    /// Changes a graph. Where memory runs out, the graph is as before.
    fn apply(&mut self, flow: &mut Flow) -> Result<(), PassMemory>
        ensures keeps { OnOk result (Keeps flow.old flow.new) }
        ensures does { OnOk result (does self.old flow.old flow.new (changed self.old) (changed self.new)) }
        ensures undone { OnErr result (flow.new ≡ flow.old) }
        ensures named { label self.new ≡ label self.old }
        ensures counted { changed self.old ≤ changed self.new }
        ensures ran { OnOk result (Rose (runs self.old) (runs self.new)) }
        ensures no_fall { runs self.old ≤ runs self.new };
}

impl Pass for Box<dyn Pass> {
    ghost label = { λ b. (Pass-box b).label b.value };

    ghost changed = { λ b. (Pass-box b).changed b.value };

    ghost runs = { λ b. (Pass-box b).runs b.value };

    ghost does = { λ b. (Pass-box b).does b.value };

    fn name(&self) -> &str {
        (**self).name()
    }

    fn changes(&self) -> u64 {
        (**self).changes()
    }

    fn apply(&mut self, flow: &mut Flow) -> Result<(), PassMemory> {
        (**self).apply(flow)
    }
}
