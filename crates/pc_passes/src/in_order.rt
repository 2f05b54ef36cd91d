//! The passes in their order.
ghost use Rattle.std.specs.Prelude.{IfOk};
ghost use Rattle.pc_passes.specs.CompilerPasses.{label_of, changed_of, does_of};
ghost use Rattle.pc_passes.specs.Passes.{AreThePasses};

use crate::compiler_pass::CompilerPass;
use pc_forward::Forward;
use pc_ranges::Ranges;
use pc_scalar::{Copies, Dead, Fold, Values};
use std::alloc::{AllocError, Global};

/// The passes over the flow graph that the compiler applies, in its order. None has changed anything yet.
pub fn passes(alloc: Global) -> Result<Vec<CompilerPass>, AllocError>
    ensures { IfOk result (λ passes. AreThePasses label_of changed_of does_of passes.items) }
{
    let mut passes = Vec::new(alloc);
    passes.push(CompilerPass::Fold {
        pass: Fold::new(alloc),
    })?;
    passes.push(CompilerPass::Ranges {
        pass: Ranges::new(alloc),
    })?;
    passes.push(CompilerPass::Copies {
        pass: Copies::new(alloc),
    })?;
    passes.push(CompilerPass::Values {
        pass: Values::new(alloc),
    })?;
    passes.push(CompilerPass::Forward {
        pass: Forward::new(alloc),
    })?;
    passes.push(CompilerPass::Dead {
        pass: Dead::new(alloc),
    })?;
    Ok(passes)
}
