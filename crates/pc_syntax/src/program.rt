use crate::statement::{StmtList, copy_list};
use pc_word::OutOfMemory;
use std::alloc::Global;

/// Why a tree could not be made.
pub type SyntaxError = OutOfMemory;

/// A program: the statements of the block of its `main`.
#[derive(Debug, Drop)]
pub struct Program {
    pub items: StmtList,
}

impl Program {
    ghost use Rattle.std.specs.Prelude.{◌≡◌, IfOk};
    ghost use Rattle.pc_syntax.specs.Erasure.{program_of};
    ghost use Rattle.pc_syntax.specs.UnitErasure.{unit_list_of};

    /// An equal program, in memory of its own. It fails only where memory runs out.
    pub fn copy(&self, alloc: Global) -> Result<Program, SyntaxError>
        ensures same { IfOk result (λ copy. program_of copy ≡ program_of self.now) }
        // Its calls, of which `program_of` says nothing, are those of this one too.
        ensures calls { IfOk result (λ copy. unit_list_of copy.items ≡ unit_list_of self.now.items) }
    {
        let items = copy_list(alloc, &self.items)?;
        Ok(Program { items })
    }
}
