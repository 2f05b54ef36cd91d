//! The object of a checked program.
ghost use Rattle.std.specs.Prelude.{◌≡◌, ◌≤◌, length, map, IfOk, IfErr, OnOk};
ghost use Rattle.pc_check.specs.Checks.{resolved_of};
ghost use Rattle.pc_check.specs.Sizes.{resolved_size};
ghost use Rattle.pc_word.specs.MachineLimits.{most_object};
ghost use Rattle.pc_word.specs.Ranges.{AreLimits, IsExtent};
ghost use Rattle.pc_machine.specs.Registers.{most_registers};
ghost use Rattle.pc_machine.specs.WellFormed.{AreArrays};
ghost use Rattle.pc_word.specs.Data.{AreData};
ghost use Rattle.pc_object.specs.ObjectText.{object_of};
ghost use Rattle.pc_pass.specs.Pass.{Chain, EachRose};
ghost use Rattle.pc_table.specs.StoredTable.{table_of};
ghost use Rattle.pc_emit.specs.Bytes.{object_bytes};
ghost use Rattle.pc_emit.specs.Emitting.{region_forms, AreEnough, AreForms};
ghost use Rattle.pc_compile.specs.declared.error.CompileError.TheVariants.{Memory};
ghost use Rattle.pc_compile.specs.Compiled.{IsCompiled, IsUncompiled};
ghost use Rattle.pc_compile.specs.models.Made.{IsObjectOf};

use crate::ChoiceList;
use crate::bytes::rows_bytes;
use crate::choice::Chosen;
use crate::choosing::choose;
use crate::error::CompileError;
use crate::notes::notes;
use crate::registers::fitted;
use pc_check::Checked;
use pc_emit::emit;
use pc_flow::Flow;
use pc_live::live;
use pc_lower::lower;
use pc_machine::{Code, MOST_REGISTERS};
use pc_object::Object;
use pc_pass::{Pass, run_list};
use pc_recolor::recolor_and_tighten;
use pc_regions::regions;
use pc_table::RegionTable;
use pc_word::{DataList, Extent, LengthList, Limits, WordList};
use std::alloc::{AllocError, Global};

/// A program's flow graph after passes, the graph's regions, the forms that the reachable ones got,
/// and the program's object.
#[derive(Debug, Drop)]
pub struct Compiled {
    pub flow: Flow,
    pub table: RegionTable,
    pub choices: ChoiceList,
    pub object: Object,
}

/// The object of a checked program, under limits of rows that the machine has, after passes over its flow
/// graph, each of which is applied once, in order. The graph is cut into regions then. Each of them that is reachable gets the
/// first form that is not refused: pipelined, for an innermost loop, with at most as many iterations in a window as the
/// extent's window and at most as many rows as its rows; packed; or a row for each item and test. Registers are
/// chosen anew over the rows then, which are tightened at last, and the code gets the fewer registers where it
/// names no others. It fails where the graph would have more than 16,384 nodes, and where memory runs out; then
/// some of the passes may have been applied.
pub fn compile<P: Pass>(
    alloc: Global,
    checked: &Checked,
    passes: &mut Vec<P>,
    limits: Limits,
    extent: Extent,
) -> Result<Compiled, CompileError>
    requires limits { AreLimits limits }
    requires extent { IsExtent extent }
    ensures compiled { IfOk result (λ it. IsCompiled (resolved_of checked.now) (Chain P.does P.changed passes.old.items passes.new.items)
        limits extent it.flow (table_of it.table) it.choices (object_of it.object)) }
    ensures uncompiled { IfErr result (λ error. IsUncompiled (resolved_size (resolved_of checked.now)) error) }
    ensures named { map P.label passes.new.items ≡ map P.label passes.old.items }
    ensures ran { OnOk result (EachRose (map P.runs passes.old.items) (map P.runs passes.new.items)) }
{
    let mut flow = lower(alloc, checked)?;
    run_list(passes, &mut flow)?;
    let liveness = live(alloc, &flow)?;
    let table = regions(alloc, &flow, &liveness)?;
    let initial = flow.initial();
    let chosen = choose(alloc, &table, initial, limits, extent)?;
    let object = object_of(alloc, &table, initial, &chosen, limits)?;
    Ok(Compiled {
        flow,
        table,
        choices: chosen.choices,
        object,
    })
}

/// The object of a region table in the forms that were chosen, whose arrays begin with these data.
fn object_of(
    alloc: Global,
    table: &RegionTable,
    initial: &DataList,
    chosen: &Chosen,
    limits: Limits,
) -> Result<Object, CompileError>
    requires limits { AreLimits limits }
    requires arrays { AreArrays (table_of table.now).arrays }
    requires fit { AreData (table_of table.now).arrays initial.now }
    requires enough { AreEnough most_registers (region_forms chosen.now.forms) }
    requires count { length chosen.now.forms ≡ length table.now.regions }
    requires forms { AreForms (table_of table.now) limits (region_forms chosen.now.forms) }
    requires counted { chosen.now.bytes ≡ object_bytes (table_of table.now) initial.now (region_forms chosen.now.forms) }
    requires short { chosen.now.bytes ≤ most_object }
    ensures object { IfOk result (λ object. IsObjectOf (table_of table.now) initial.now chosen.now.forms chosen.now.choices limits (object_of object)) }
    ensures memory { IfErr result (λ error. error ≡ Memory) }
{
    let most = rows_bytes(table, initial, chosen.bytes) as usize;
    let arrays = LengthList::from_slice(alloc, table.arrays.as_slice())?;
    let initial = copied(alloc, initial.as_slice())?;
    let rows = emit(alloc, table, chosen.forms.as_slice(), limits)?;
    let notes = notes(alloc, table, chosen.choices.as_slice())?;
    let emitted = fitted(Code {
        limits,
        registers: MOST_REGISTERS as u16,
        arrays,
        initial,
        rows,
    });
    let code = recolor_and_tighten(alloc, emitted, most)?;
    Ok(Object {
        code: fitted(code),
        notes,
    })
}

/// The same data in a list of their own.
fn copied(alloc: Global, initial: &[WordList]) -> Result<DataList, AllocError>
    ensures { IfOk result (λ list. list ≡ initial.now) }
{
    let mut list = DataList::new(alloc);
    for words in initial {
        list.push(WordList::from_slice(alloc, words.as_slice())?)?;
    }
    Ok(list)
}
