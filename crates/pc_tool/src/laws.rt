//! What follows from the compiler's promise. The function here does nothing: its contract is the law.
ghost use Rattle.std.specs.Prelude.{List, Option};
ghost use Rattle.pc_compile.specs.declared.program.Compiled.{Compiled};
ghost use Rattle.pc_pass.specs.Pass.{Chain};
ghost use Rattle.pc_tool.specs.CompilerLaws.{CompilerPromisesSay};
ghost use Rattle.pc_tool.specs.Scheduled.{IsScheduledAs};

use pc_pass::Pass;

/// What the compiler's promise says for each status; a source is compiled, and another text is refused.
pub fn laws_of_the_compiler<P: Pass>()
    ensures { (before after : List P) (handed : Option Compiled) → CompilerPromisesSay (IsScheduledAs (Chain P.does P.changed before after) handed) }
{}
