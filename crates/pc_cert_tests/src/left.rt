//! What is left behind the fronts of windows, and windows that are one leaf.
ghost use Rattle.std.specs.Prelude.{IfOk, IfSome};
ghost use Rattle.pc_settling.specs.Stored.{IsLeft};

use crate::tables::{LIMITS, arranged};
use pc_automaton::cut_front;
use pc_cert::Step;
use pc_fill::size_up_to;
use pc_matching::{Fact, FactList};
use pc_settling::{Remaining, settle};
use pc_table::RegionTable;
use pc_window::{HomeList, Window, WindowTree};
use pc_window_specimen::{Untold, bare, first_rest, opened as opened_window};
use pc_word::Operand;
use std::alloc::{AllocError, Global};

/// The most items and tests of a window that is left.
const MOST_SIZE: u32 = 4096;

/// A source, and the operand whose value it has.
pub(crate) type Held = (Operand, Operand);

/// These facts as a list.
pub(crate) fn listed(alloc: Global, facts: &[Held]) -> Result<FactList, AllocError> {
    let mut listed = FactList::new(alloc);
    for (source, operand) in facts {
        listed.push(Fact {
            source: *source,
            operand: *operand,
        })?;
    }
    Ok(listed)
}

/// A stub alone, which has no homes.
#[tactic(auto, using(crate::proofs::Arranged::stubs))]
pub(crate) fn stub(alloc: Global, region: u32, tag: u32) -> Window
    ensures { IsLeft result }
{
    let homes = HomeList::new(alloc);
    bare(alloc, WindowTree::Exit { region, tag, homes }, LIMITS)
}

/// A region's window, just opened, where these facts hold.
#[tactic(auto, using(crate::proofs::Arranged::windows))]
pub(crate) fn opened(
    alloc: Global,
    table: &RegionTable,
    region: u32,
    facts: &[Held],
) -> Result<Remaining, Untold>
    ensures { IfOk result (λ left. IsLeft left.window) }
{
    let window = opened_window(alloc, table, region, LIMITS)?;
    let facts = listed(alloc, facts)?;
    Ok(Remaining { window, facts })
}

/// What is left at the first leaf of the front that steps arrange in a region's window, settled, where
/// these facts hold there.
#[tactic(auto, using(crate::proofs::Arranged::windows))]
pub(crate) fn settled(
    alloc: Global,
    table: &RegionTable,
    region: u32,
    steps: &[Step],
    facts: &[Held],
) -> Result<Option<Remaining>, Untold>
    ensures { IfOk result (λ left. IfSome left (λ it. IsLeft it.window)) }
{
    let Some(window) = arranged(alloc, table, region, steps)? else {
        return Ok(None);
    };
    let row = cut_front(alloc, window, table)?;
    let Some(window) = first_rest(row) else {
        return Ok(None);
    };
    if size_up_to(&window.tree, MOST_SIZE + 1) > MOST_SIZE {
        return Ok(None);
    }
    let facts = listed(alloc, facts)?;
    Ok(Some(settle(alloc, window, facts)?))
}
