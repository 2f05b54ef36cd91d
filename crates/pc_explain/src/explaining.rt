//! Explaining what was chosen, loop by loop.
ghost use Rattle.std.specs.Prelude.{◌≡◌, ◌<◌, length, IfOk};
ghost use Rattle.std.specs.List.{AllByRecursion};
ghost use Rattle.pc_word.specs.Ranges.{AreLimits, IsExtent};
ghost use Rattle.pc_table.specs.Loops.{innermost_loop};
ghost use Rattle.pc_table.specs.StoredTable.{table_of};
ghost use Rattle.pc_explain.specs.Explained.{search_extent, explanation_in, explanations_in, loop_line, if_asked, line_asked};
ghost use Rattle.pc_explain.specs.Explained.{IsExplained, AreExplained, HasChosen, CanBeWritten};
ghost use Rattle.pc_explain.specs.models.Searched.{IsSearched};

use crate::LoopExplanationList;
use crate::explanation::LoopExplanation;
use crate::searching::{schedule, search_extent};
use pc_compile::Choice;
use pc_flow::Flow;
use pc_table::RegionTable;
use pc_word::{Extent, Limits, OutOfMemory};
use std::alloc::Global;

/// What the compiler found for each innermost loop of a flow graph's table of which it gave these choices, within these limits and this
/// extent:
/// in the order of the choices, one explanation for each region that heads such a loop. With a line, a line of the source counted from
/// 1, only loops whose keyword stands at it are explained.
///
/// A loop of whose header no choice was given, since a pass removed it or no run comes to it, is not among them. Of a packed loop whose
/// body has several regions, the header's states alone are told.
///
/// It takes one search for each loop whose form is not plain, the one that found the form. It fails where memory runs out.
pub fn explain_loops(
    alloc: Global,
    flow: &Flow,
    table: &RegionTable,
    choices: &[Choice],
    limits: Limits,
    extent: Extent,
    line: Option<u32>,
) -> Result<LoopExplanationList, OutOfMemory>
    requires limits { AreLimits limits }
    requires extent { IsExtent extent }
    requires chosen { HasChosen (table_of table.now) limits extent choices.now }
    ensures explained { IfOk result (λ loops. AreExplained flow.now (table_of table.now) limits extent line choices.now (explanations_in loops)) }
    ensures can { IfOk result (λ loops. AllByRecursion (CanBeWritten limits) (explanations_in loops)) }
{
    let mut loops = LoopExplanationList::new(alloc);
    for choice in choices {
        if let Some(at) = line_asked(table, line, choice.region) {
            let explanation = explain(alloc, flow, table, choice, limits, extent, at)?;
            loops.push(explanation)?;
        }
    }
    Ok(loops)
}

/// What was found for the loop at a line whose header is the region of a choice.
fn explain(
    alloc: Global,
    flow: &Flow,
    table: &RegionTable,
    choice: &Choice,
    limits: Limits,
    extent: Extent,
    line: u32,
) -> Result<LoopExplanation, OutOfMemory>
    requires there { choice.now.region < length table.now.regions }
    requires limits { AreLimits limits }
    requires extent { IsExtent extent }
    requires searched { IsSearched (table_of table.now) limits choice.now.region (search_extent extent choice.now.form) }
    ensures { IfOk result (λ it. IsExplained flow.now (table_of table.now) limits extent line choice.now (explanation_in it)) }
{
    let schedule = match search_extent(extent, choice.form) {
        None => None,
        Some(extent) => Some(schedule(alloc, flow, table, choice.region, limits, extent)?),
    };
    Ok(LoopExplanation {
        region: choice.region,
        note: choice.note(line),
        schedule,
    })
}

/// The line of the innermost loop that a region heads, if it heads one that is asked for.
fn line_asked(table: &RegionTable, asked: Option<u32>, region: u32) -> Option<u32>
    ensures { result ≡ line_asked (table_of table.now) asked region }
{
    if_asked(asked, innermost_line(table, region))
}

/// The line of the innermost loop that a region heads, if it heads one.
fn innermost_line(table: &RegionTable, region: u32) -> Option<u32>
    ensures { result ≡ loop_line table.now.loops (innermost_loop (table_of table.now) region) }
{
    let number = table.innermost_loop(region)?;
    let mark = table.loops.get(number as usize)?;
    Some(mark.line)
}

/// A line, if it is the one that is asked for, or none is.
fn if_asked(asked: Option<u32>, line: Option<u32>) -> Option<u32>
    ensures { result ≡ if_asked asked line }
{
    match (asked, line) {
        (_, None) => None,
        (None, Some(line)) => Some(line),
        (Some(asked), Some(line)) if asked == line => Some(line),
        (Some(_), Some(_)) => None,
    }
}
