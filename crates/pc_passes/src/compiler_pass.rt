//! The passes that the compiler applies, as one type.
ghost use Rattle.pc_passes.specs.CompilerPasses.{label_of, changed_of, runs_of, does_of};

use pc_flow::Flow;
use pc_forward::Forward;
use pc_pass::{Pass, PassMemory};
use pc_ranges::Ranges;
use pc_scalar::{Copies, Dead, Fold, Values};

/// One of the passes over the flow graph that the compiler applies. It does what the pass in it does.
#[derive(Drop)]
pub enum CompilerPass {
    Fold { pass: Fold },
    Ranges { pass: Ranges },
    Copies { pass: Copies },
    Values { pass: Values },
    Forward { pass: Forward },
    Dead { pass: Dead },
}

impl Pass for CompilerPass {
    ghost label = { λ it. label_of it };

    ghost changed = { λ it. changed_of it };

    ghost runs = { λ it. runs_of it };

    ghost does = { λ it. does_of it };

    fn name(&self) -> &str {
        match self {
            CompilerPass::Fold { pass } => pass.name(),
            CompilerPass::Ranges { pass } => pass.name(),
            CompilerPass::Copies { pass } => pass.name(),
            CompilerPass::Values { pass } => pass.name(),
            CompilerPass::Forward { pass } => pass.name(),
            CompilerPass::Dead { pass } => pass.name(),
        }
    }

    fn changes(&self) -> u64 {
        match self {
            CompilerPass::Fold { pass } => pass.changes(),
            CompilerPass::Ranges { pass } => pass.changes(),
            CompilerPass::Copies { pass } => pass.changes(),
            CompilerPass::Values { pass } => pass.changes(),
            CompilerPass::Forward { pass } => pass.changes(),
            CompilerPass::Dead { pass } => pass.changes(),
        }
    }

    fn apply(&mut self, flow: &mut Flow) -> Result<(), PassMemory> {
        match self {
            CompilerPass::Fold { pass } => pass.apply(flow),
            CompilerPass::Ranges { pass } => pass.apply(flow),
            CompilerPass::Copies { pass } => pass.apply(flow),
            CompilerPass::Values { pass } => pass.apply(flow),
            CompilerPass::Forward { pass } => pass.apply(flow),
            CompilerPass::Dead { pass } => pass.apply(flow),
        }
    }
}
