//! From a checked program to the bytes of its object.
ghost use Rattle.std.specs.Prelude.{◌≡◌, map, IfErr, IfOk, OnOk};
ghost use Rattle.pc_check.specs.Checks.{resolved_of};
ghost use Rattle.pc_check.specs.Sizes.{resolved_size};
ghost use Rattle.pc_compile.specs.Compiled.{IsUncompiled};
ghost use Rattle.pc_pass.specs.Pass.{Chain, EachRose};
ghost use Rattle.pc_tool.specs.models.Translating.{IsTranslation};
ghost use Rattle.pc_word.specs.Ranges.{AreLimits, IsExtent};

use pc_check::Checked;
use pc_compile::{CompileError, Compiled, compile};
use pc_object::encode;
use pc_pass::Pass;
use pc_word::{Extent, Limits};
use std::alloc::Global;

/// What was compiled, and the bytes of its object.
#[derive(Debug, Drop)]
pub(crate) struct Translation {
    pub(crate) compiled: Compiled,
    pub(crate) bytes: Vec<u8>,
}

/// The object that does what a program does, after passes over its flow graph.
#[tactic(auto, using(crate::proofs::Translations::translations))]
pub(crate) fn translate<P: Pass>(
    alloc: Global,
    checked: &Checked,
    passes: &mut Vec<P>,
    limits: Limits,
    extent: Extent,
) -> Result<Translation, CompileError>
    requires limits { AreLimits limits }
    requires extent { IsExtent extent }
    ensures translation { IfOk result (λ it. IsTranslation (Chain P.does P.changed passes.old.items passes.new.items) limits extent (resolved_of checked.now) it) }
    ensures uncompiled { IfErr result (λ error. IsUncompiled (resolved_size (resolved_of checked.now)) error) }
    ensures named { map P.label passes.new.items ≡ map P.label passes.old.items }
    ensures ran { OnOk result (EachRose (map P.runs passes.old.items) (map P.runs passes.new.items)) }
{
    let compiled = compile(alloc, checked, passes, limits, extent)?;
    let bytes = encode(alloc, &compiled.object)?;
    Ok(Translation { compiled, bytes })
}
