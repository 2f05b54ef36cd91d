//! The regions of a checked program.
ghost use Rattle.std.specs.Prelude.{◌≡◌, map, IfErr, IfOk, OnOk};
ghost use Rattle.pc_check.specs.Checks.{resolved_of};
ghost use Rattle.pc_check.specs.Sizes.{resolved_size};
ghost use Rattle.pc_middle.specs.CutProgram.{IsCutProgram, IsUncut};
ghost use Rattle.pc_pass.specs.Pass.{Chain, EachRose};
ghost use Rattle.pc_table.specs.StoredTable.{table_of};

use crate::error::CutError;
use pc_check::Checked;
use pc_flow::Flow;
use pc_live::live;
use pc_lower::lower;
use pc_pass::{Pass, run_list};
use pc_regions::regions;
use pc_table::RegionTable;
use std::alloc::Global;

/// A program's flow graph after passes, and the graph's regions.
#[derive(Debug, Drop)]
pub struct CutProgram {
    pub flow: Flow,
    pub table: RegionTable,
}

/// The flow graph of a checked program, after passes, each of which is applied once, in order; and the regions that this graph
/// is cut into. The regions do what the program does, for every input. It fails where the graph would have more than
/// 16,384 nodes, and where memory runs out; then some of the passes may have been applied.
#[tactic(auto, using(crate::proofs::CutPrograms::not_too_large))]
pub fn cut_program<P: Pass>(
    alloc: Global,
    checked: &Checked,
    passes: &mut Vec<P>,
) -> Result<CutProgram, CutError>
    ensures cut { IfOk result (λ it. IsCutProgram (resolved_of checked.now) (Chain P.does P.changed passes.old.items passes.new.items) it.flow (table_of it.table)) }
    ensures uncut { IfErr result (λ error. IsUncut (resolved_size (resolved_of checked.now)) error) }
    ensures named { map P.label passes.new.items ≡ map P.label passes.old.items }
    ensures ran { OnOk result (EachRose (map P.runs passes.old.items) (map P.runs passes.new.items)) }
{
    let mut flow = lower(alloc, checked)?;
    run_list(passes, &mut flow)?;
    let liveness = live(alloc, &flow)?;
    let table = regions(alloc, &flow, &liveness)?;
    Ok(CutProgram { flow, table })
}
