//! A checked program as a flow graph.
ghost use Rattle.std.specs.Prelude.{◌≡◌, IfOk, IfErr, true, length};
ghost use Rattle.pc_word.specs.SourceLimits.{most_scalars};
ghost use Rattle.pc_syntax.specs.Erasure.{list_of};
ghost use Rattle.pc_check.specs.Sizes.{list_size, resolved_size};
ghost use Rattle.pc_check.specs.Sound.{list_is_sound};
ghost use Rattle.pc_check.specs.Checks.{resolved_of};
ghost use Rattle.pc_lower.specs.Lowered.{IsLowered, IsRefused};
ghost use Rattle.pc_lower.specs.LoopTests.{EachTested};
ghost use Rattle.pc_lower.specs.models.LowersStatement.{IsUnplaced, IsLaid};

use crate::data::copy_data;
use crate::draft::Draft;
use crate::error::LowerError;
use crate::marks::mark_list;
use crate::measure::list_loops;
use crate::spot::Spot;
use crate::statement::lower_list;
use pc_check::{Checked, size};
use pc_flow::{Flow, FlowNode};
use pc_syntax::StmtList;
use pc_word::{LengthList, LoopList, MOST_NODES};
use std::alloc::Global;

/// The end, with the last number, and before it the statements. Gives the number of the first node.
fn lower_body(draft: &mut Draft, last: u32, body: &StmtList) -> u32
    requires first { IsUnplaced draft.now (list_of body.now) }
    requires last { last ≡ list_size (list_of body.now) }
    requires sound { list_is_sound most_scalars (length draft.now.graph.arrays) true (list_of body.now) ≡ true }
    ensures laid { IsLaid draft.old draft.new (list_of body.now) result }
    ensures tested { EachTested draft.new.graph }
{
    draft.place(last, FlowNode::Stop, None);
    let spot = Spot {
        end: last,
        next: last,
        break_to: last,
        continue_to: last,
        return_to: last,
        inside: None,
        loops_end: list_loops(body),
    };
    lower_list(draft, body, spot).entry
}

/// The flow graph of a checked program, with the data of its arrays. It shows what the program shows,
/// for every input. It fails where the graph would have more than 16,384 nodes, and where memory runs
/// out.
pub fn lower(alloc: Global, checked: &Checked) -> Result<Flow, LowerError>
    ensures lowered { IfOk result (λ flow. IsLowered (resolved_of checked.now) flow) }
    ensures refused { IfErr result (λ e. IsRefused (resolved_size (resolved_of checked.now)) e) }
{
    let count = size(&checked.body);
    if count > MOST_NODES {
        return Err(LowerError::TooLarge { nodes: count });
    }
    let arrays = LengthList::from_slice(alloc, checked.arrays.as_slice())?;
    let initial = copy_data(alloc, &checked.initial)?;
    let items = &checked.body.items;
    let mut loops = LoopList::new(alloc);
    mark_list(&mut loops, items, None)?;
    let mut draft = Draft::new(alloc, count, loops, arrays, initial)?;
    let entry = lower_body(&mut draft, count - 1, items);
    Ok(draft.into_flow(entry))
}
