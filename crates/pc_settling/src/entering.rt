//! A stub that is all that is left is taken as its region.
ghost use Rattle.std.specs.Prelude.{◌≡◌, ◌<◌, ◌≤◌, length, true, IfOk, IfSome};
ghost use Rattle.pc_word.specs.Ranges.{AreLimits};
ghost use Rattle.pc_table.specs.StoredTable.{table_of};
ghost use Rattle.pc_window.specs.Tree.{home_of};
ghost use Rattle.pc_window.specs.StoredWindow.{tree_in, InNodes};
ghost use Rattle.pc_matching.specs.Facts.{facts_of};
ghost use Rattle.pc_settling.specs.Begun.{facts_in_region, in_region, is_stub, entered, entered_if};
ghost use Rattle.pc_settling.specs.Stored.{remaining_in, some_remaining_in, IsLeft};

use crate::remaining::Remaining;
use crate::sources::push_sources;
use pc_matching::{Fact, FactList};
use pc_table::RegionTable;
use pc_window::{Home, VARIABLES, Window, WindowError, WindowTree};
use pc_word::{Limits, Operand};
use std::alloc::{AllocError, Global};

/// The home of a variable; 0 where it has none.
fn home_of(homes: &[Home], variable: u32) -> Operand
    ensures { result ≡ home_of homes.now variable }
{
    for home in homes {
        if home.variable == variable {
            return home.value;
        }
    }
    Operand::Lit(0)
}

/// The facts in a region that is entered with these homes: what had the value of a variable's home has
/// the variable's.
fn facts_in_region(alloc: Global, homes: &[Home], facts: &[Fact]) -> Result<FactList, AllocError>
    ensures { IfOk result (λ inside. facts_of inside ≡ facts_in_region homes.now (facts_of facts.now)) }
{
    let mut inside = FactList::new(alloc);
    for variable in 0..VARIABLES as u32 {
        let home = home_of(homes, variable);
        push_sources(&mut inside, variable, home, facts)?;
    }
    Ok(inside)
}

/// The region of a stub, opened, where these facts held.
#[tactic(auto, using(crate::proofs::EnteredRegions::regions))]
fn in_region(
    alloc: Global,
    table: &RegionTable,
    limits: Limits,
    region: u32,
    homes: &[Home],
    facts: &[Fact],
) -> Result<Remaining, WindowError>
    requires there { region < length table.now.regions }
    requires limits { AreLimits limits }
    ensures inside { IfOk result (λ inside. remaining_in inside ≡ in_region (table_of table.now) limits region homes.now (facts_of facts.now)) }
    ensures left { IfOk result (λ inside. IsLeft inside.window) }
{
    let window = Window::of_region(alloc, table, region, limits)?;
    let facts = facts_in_region(alloc, homes, facts)?;
    Ok(Remaining { window, facts })
}

/// Whether a tree is a stub alone.
pub(crate) fn is_stub(tree: &WindowTree) -> bool
    requires { InNodes true tree.now }
    ensures { result ≡ is_stub (tree_in tree.now) }
{
    matches!(tree, WindowTree::Exit { .. })
}

/// What is left, where a stub alone is taken as its region, again as long as it is a stub alone, at most
/// so many times; `None` where it then is one still, or a region is not there.
#[tactic(auto, using(crate::proofs::EnteredRegions::regions))]
fn entered(
    alloc: Global,
    table: &RegionTable,
    limits: Limits,
    left: Remaining,
    most: u32,
) -> Result<Option<Remaining>, WindowError>
    requires limits { AreLimits limits }
    requires left { IsLeft left.window }
    ensures entered { IfOk result (λ inside. some_remaining_in inside ≡ entered (table_of table.now) limits (remaining_in left) (tree_in left.window.tree) most) }
    ensures left { IfOk result (λ inside. IfSome inside (λ it. IsLeft it.window)) }
{
    let WindowTree::Exit { region, homes, .. } = &left.window.tree else {
        return Ok(Some(left));
    };
    if most == 0 || *region as usize >= table.regions.len() {
        return Ok(None);
    }
    let inside = in_region(
        alloc,
        table,
        limits,
        *region,
        homes.as_slice(),
        left.facts.as_slice(),
    )?;
    entered(alloc, table, limits, inside, most - 1)
}

/// So where this is asked for, with at most as many regions as there are.
#[tactic(auto, using(crate::proofs::EnteredRegions::regions))]
pub(crate) fn entered_if(
    alloc: Global,
    table: &RegionTable,
    limits: Limits,
    enters: bool,
    left: Remaining,
) -> Result<Option<Remaining>, WindowError>
    requires limits { AreLimits limits }
    requires left { IsLeft left.window }
    ensures entered { IfOk result (λ inside. some_remaining_in inside ≡ entered_if (table_of table.now) limits enters (remaining_in left)) }
    ensures left { IfOk result (λ inside. IfSome inside (λ it. IsLeft it.window)) }
{
    if enters {
        let most = table.regions.len() as u32;
        return entered(alloc, table, limits, left, most);
    }
    Ok(Some(left))
}
