//! Elements of arrays: the test of an index, and the load after it.
ghost use Rattle.std.specs.Prelude.{◌≡◌, ◌<◌, ℕ, length};
ghost use Rattle.pc_word.specs.SourceLimits.{most_temporaries};
ghost use Rattle.pc_word.specs.declared.item.Item.TheVariants.{Load};
ghost use Rattle.pc_flow.specs.FlowGraph.{IsVariable};
ghost use Rattle.pc_lower.specs.Lowers.{temporary, Bounds, Does};
ghost use Rattle.pc_lower.specs.models.Drafts.{IsPlaced};
ghost use Rattle.pc_lower.specs.models.Fills.{HasRoom, Lays};
ghost use Rattle.pc_lower.specs.models.LowersExpression.{AreLengths};

use crate::draft::Draft;
use crate::parts::{lay, lay_guard, lay_item};
use crate::site::Site;
use pc_flow::FlowNode;
use pc_word::{Item, OpCode, Operand, TrapKind};

/// An element: its array, where its index is, and the line of its bracket, which a trap tells.
#[derive(Clone, Copy, Debug)]
pub(crate) struct Element {
    pub array: u8,
    pub line: u32,
    pub index: Operand,
}

/// A test that an index is within its array, with the trap to which it leads.
pub(crate) fn lay_bounds(draft: &mut Draft, element: Element, site: Site) -> u32
    requires room { HasRoom draft.now 3 site.end site.inside }
    requires array_there { element.array < length draft.now.graph.arrays }
    requires lengths { AreLengths draft.now.graph.arrays }
    requires result_there { site.temporary < most_temporaries }
    requires index { IsVariable element.index }
    requires leads { IsPlaced draft.now.graph site.next }
    ensures { Lays draft.old draft.new 3 result site.end
        (λ flow. Bounds flow site.inside element.array element.line (temporary site.temporary) element.index result site.next) }
{
    let within = 64 + site.temporary;
    let length = draft.length(element.array) as i32;
    let on = Operand::Name(within);
    let guard = lay_guard(draft, on, TrapKind::OutOfBounds, element.line, site);
    let below = Item::Bin {
        op: OpCode::Below,
        dest: within,
        left: element.index,
        right: Operand::Lit(length),
    };
    let node = FlowNode::Op {
        item: below,
        next: guard,
    };
    lay(draft, node, site.leading_to(guard))
}

/// The load of an element, after the test of its index, for which there is a temporary.
#[tactic(auto, using(crate::proofs::Layouts::lays_load))]
pub(crate) fn lay_load(draft: &mut Draft, element: Element, within: u32, site: Site) -> u32
    requires room { HasRoom draft.now 4 site.end site.inside }
    requires array_there { element.array < length draft.now.graph.arrays }
    requires lengths { AreLengths draft.now.graph.arrays }
    requires within_there { within < most_temporaries }
    requires result_there { site.temporary < most_temporaries }
    requires index { IsVariable element.index }
    requires leads { IsPlaced draft.now.graph site.next }
    ensures { Lays draft.old draft.new 4 result site.end
        (λ flow. (m : ℕ) × Bounds flow site.inside element.array element.line (temporary within) element.index result m
        × Does flow site.inside m (Load (temporary site.temporary) element.array element.index) site.next) }
{
    let load = Item::Load {
        dest: 64 + site.temporary,
        array: element.array,
        index: element.index,
    };
    let last = lay_item(draft, load, site);
    lay_bounds(draft, element, site.leading_to(last).above(within))
}
