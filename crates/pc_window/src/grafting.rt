//! A region's tree, brought into a window: with homes in place of its variables.
ghost use Rattle.std.specs.Prelude.{◌≡◌, ◌<◌, ◌≤◌, ◌^◌, true, false, length, slice_set, OnOk, IfOk};
ghost use Rattle.pc_word.specs.declared.item.Operand.TheVariants.{Name};
ghost use Rattle.pc_table.specs.Table.{table_tree, region_live};
ghost use Rattle.pc_table.specs.StoredTable.{table_of};
ghost use Rattle.pc_table.specs.TableKeeps.{TreeIsThere, units};
ghost use Rattle.pc_window.specs.Tree.{Pending, Undecided, Exit, tree_size};
ghost use Rattle.pc_window.specs.Opening.{first_new, changed, stub_tag, homes_at};
ghost use Rattle.pc_window.specs.StoredWindow.{tree_in, supply_in, homes_in, InNodes};
ghost use Rattle.pc_window.specs.Grafting.{Grafts, HasNames, TakesNames};

use crate::HomeList;
use crate::bring::{Brought, at_home, bring};
use crate::home::Home;
use crate::names::NameTable;
use crate::nodes::in_node;
use crate::tree::WindowTree;
use pc_table::{RegionTable, RegionTree};
use pc_word::{Item, MOST_SCALARS, MOST_TEMPORARIES, Operand};
use std::alloc::{AllocError, Global};

/// How many variables there are.
pub const VARIABLES: usize = (MOST_SCALARS + MOST_TEMPORARIES) as usize;

/// Gives a variable another home. Tells the one that it had.
#[tactic(auto, using(crate::proofs::HomesStored::homes))]
fn replace_home(homes: &mut [Operand; VARIABLES], variable: u32, home: Operand) -> Operand
    requires { variable < first_new }
    ensures moved { homes_in homes.new ≡ changed (homes_in homes.old) variable home }
    ensures back { slice_set homes.new variable result ≡ homes.old }
{
    let before = homes[variable as usize];
    homes[variable as usize] = home;
    before
}

/// The homes of these variables.
#[tactic(auto, using(crate::proofs::HomesStored::homes))]
fn listed(alloc: Global, homes: &[Operand], variables: &[u32]) -> Result<HomeList, AllocError>
    ensures { IfOk result (λ list. list ≡ homes_at (homes_in homes.now) variables.now) }
{
    let mut list = Vec::with_capacity(alloc, variables.len())?;
    for at in 0..variables.len() {
        let variable = variables[at];
        let value = at_home(homes, Operand::Name(variable));
        list.push(Home { variable, value })?;
    }
    Ok(HomeList::from_vec(list))
}

/// The stub that leads to a region.
fn stub(
    alloc: Global,
    table: &RegionTable,
    inside: Option<u16>,
    tag: u32,
    number: u32,
    homes: &[Operand],
) -> Result<WindowTree, AllocError>
    requires there { number < length table.now.regions }
    requires tag { tag < 2 ^ 31 }
    ensures nodes { IfOk result (λ tree. InNodes true tree) }
    ensures tree { IfOk result (λ tree. tree_in tree
        ≡ Exit number (stub_tag (table_of table.now) inside number tag) (homes_at (homes_in homes.now) (region_live (table_of table.now) number))) }
{
    let homes = listed(alloc, homes, table.live(number).as_slice())?;
    let tag = if table.heads(number, inside) {
        tag + 1
    } else {
        tag
    };
    Ok(WindowTree::Exit {
        region: number,
        tag,
        homes,
    })
}

/// An item above a tree, each in a node of its own.
fn step(
    alloc: Global,
    tag: u32,
    origin: u32,
    item: Item,
    below: WindowTree,
) -> Result<WindowTree, AllocError>
    requires { InNodes true below }
    ensures tree { IfOk result (λ tree. tree_in tree ≡ Pending tag origin item (tree_in below)) }
    ensures nodes { IfOk result (λ tree. InNodes true tree) }
{
    let rest = in_node(alloc, below)?;
    Ok(WindowTree::Step {
        tag,
        origin,
        item,
        rest,
    })
}

/// A test above two trees, each in a node of its own.
fn test(
    alloc: Global,
    tag: u32,
    origin: u32,
    on: Operand,
    yes: WindowTree,
    no: WindowTree,
) -> Result<WindowTree, AllocError>
    requires yes { InNodes true yes }
    requires no { InNodes true no }
    ensures tree { IfOk result (λ tree. tree_in tree ≡ Undecided tag origin on (tree_in yes) (tree_in no)) }
    ensures nodes { IfOk result (λ tree. InNodes true tree) }
{
    let yes = in_node(alloc, yes)?;
    let no = in_node(alloc, no)?;
    Ok(WindowTree::Test {
        tag,
        origin,
        on,
        yes,
        no,
    })
}

/// A region's tree with homes in place of its variables. The homes that its paths move are put back, unless memory runs out.
#[tactic(auto, using(crate::proofs::GraftsStored::grafts))]
pub fn graft(
    alloc: Global,
    table: &RegionTable,
    inside: Option<u16>,
    tag: u32,
    from: &RegionTree,
    names: &mut NameTable,
    homes: &mut [Operand; VARIABLES],
) -> Result<WindowTree, AllocError>
    requires there { TreeIsThere (length table.now.arrays) (length table.now.regions) (table_tree from.now) }
    requires tag { tag < 2 ^ 31 }
    requires room { HasNames names.old (table_tree from.now) }
    ensures tree { IfOk result (λ tree.
        Grafts (table_of table.now) inside tag (table_tree from.now) (supply_in names.old) (homes_in homes.old) (tree_in tree) (supply_in names.new)) }
    ensures homes { OnOk result (homes.new ≡ homes.old) }
    ensures names { IfOk result (λ tree. TakesNames (table_tree from.now) names.old names.new) }
    ensures nodes { IfOk result (λ tree. InNodes true tree) }
    ensures size { IfOk result (λ tree. tree_size (tree_in tree) ≤ units (table_tree from.now)) }
{
    match from {
        RegionTree::Step { origin, item, next } => match bring(names, homes, *item) {
            Brought::MovesHome { variable, from } => {
                let before = replace_home(homes, variable, from);
                let tree = graft(alloc, table, inside, tag, next, names, homes)?;
                homes[variable as usize] = before;
                Ok(tree)
            }
            Brought::GetsName {
                variable,
                item,
                form,
            } => {
                let name = names.add(form)?;
                let before = replace_home(homes, variable, Operand::Name(name));
                let rest = graft(alloc, table, inside, tag, next, names, homes)?;
                homes[variable as usize] = before;
                Ok(step(alloc, tag, *origin, item, rest)?)
            }
            Brought::StaysPlain { item } => {
                let rest = graft(alloc, table, inside, tag, next, names, homes)?;
                Ok(step(alloc, tag, *origin, item, rest)?)
            }
        },
        RegionTree::Test {
            origin,
            on,
            yes,
            no,
        } => {
            let on = at_home(homes, *on);
            let yes = graft(alloc, table, inside, tag, yes, names, homes)?;
            let no = graft(alloc, table, inside, tag, no, names, homes)?;
            Ok(test(alloc, tag, *origin, on, yes, no)?)
        }
        RegionTree::Next { region } => stub(alloc, table, inside, tag, *region, homes),
        RegionTree::Stop => Ok(WindowTree::Stop),
        RegionTree::Trap { kind, line } => Ok(WindowTree::Trap {
            kind: *kind,
            line: *line,
        }),
    }
}
