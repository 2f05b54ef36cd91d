//! From a row that was reached to those that come next.
ghost use Rattle.std.specs.Prelude.{IfOk, IfSome, OnOk};
ghost use Rattle.pc_word.specs.Ranges.{AreLimits};
ghost use Rattle.pc_table.specs.StoredTable.{table_of};
ghost use Rattle.pc_arranging.specs.CanArrange.{IsArrangedIn};
ghost use Rattle.pc_settling.specs.Stored.{IsLeft};
ghost use Rattle.pc_proposing.specs.models.Leaving.{as_window, LeavesLeft, AllLeft};

use crate::arriving::arrive;
use crate::following::Flow;
use crate::parts::number_of;
use crate::planning::{RowPlan, plan};
use crate::stands::{Link, Setting, Stand, Stands};
use crate::start::{Start, arranged, facts_there, key_there};
use crate::trying::Goal;
use crate::undone::copied_window;
use pc_cert::{Opening, Step};
use pc_machine::{Leaf, Tree};
use pc_matching::{Fact, FactList, match_row};
use pc_settling::settle;
use pc_window::{NameTable, Window, WindowTree};
use pc_word::{Item, OutOfMemory, RowTree};
use std::alloc::{AllocError, Global};

/// What stands at the leaves of a row and of the window's front that it does: where the leaves lead, the facts that
/// hold there, the window's names and its loop; and the least tag of the window that was gone on from.
#[derive(Clone, Copy)]
struct Leaving<'a> {
    leaves: &'a [Leaf],
    helds: &'a [FactList],
    names: &'a NameTable,
    inside: Option<u16>,
    tag: u32,
}

/// The steps of a stand, its facts on the names of its window, and that window, arranged.
#[derive(Drop)]
struct Prepared {
    opening: Opening,
    key: Vec<u8>,
    steps: Vec<Step>,
    facts: FactList,
    window: Window,
    tag: u32,
}

/// Appends the leaves of a row.
fn push_leaves(leaves: &mut Vec<Leaf>, row: &Tree) -> Result<(), AllocError> {
    match row {
        RowTree::Step { next, .. } => push_leaves(leaves, next),
        RowTree::Test { yes, no, .. } => {
            push_leaves(leaves, yes)?;
            push_leaves(leaves, no)
        }
        RowTree::Leaf { leaf } => {
            leaves.push(*leaf)?;
            Ok(())
        }
    }
}

/// Whether the first item of a tree is a copy, as where a region was entered.
fn begins_with_copy(tree: &WindowTree) -> bool {
    matches!(
        tree,
        WindowTree::Step {
            item: Item::Copy { .. },
            ..
        }
    )
}

/// What is left at the next leaf, as this tree, arrives where the leaf leads. Appends the link, if it leads to a row.
/// Says whether it can arrive.
fn leaf_leads_on(
    alloc: Global,
    setting: &Setting,
    stands: &mut Stands,
    leaving: Leaving,
    tree: &WindowTree,
    links: &mut Vec<Option<Link>>,
) -> Result<bool, OutOfMemory>
    requires left { IsLeft (as_window leaving.names.now setting.now.code.now.limits leaving.inside tree.now) }
    requires all { AllLeft stands.old }
    ensures { OnOk result (AllLeft stands.new) }
{
    let (Some(held), Some(leaf)) = (
        leaving.helds.get(links.len()),
        leaving.leaves.get(links.len()),
    ) else {
        return Ok(false);
    };
    let Leaf::Goto { row } = leaf else {
        links.push(None)?;
        return Ok(true);
    };
    let limits = setting.code.limits;
    let held = FactList::from_slice(alloc, held.as_slice())?;
    let window = copied_window(alloc, tree, leaving.names, limits, leaving.inside)?;
    let left = settle(alloc, window, held)?;
    let entered = begins_with_copy(tree);
    let link = arrive(alloc, setting, stands, *row, left, leaving.tag, entered)?;
    let Some(link) = link else {
        return Ok(false);
    };
    links.push(Some(link))?;
    Ok(true)
}

/// What is left at the leaves of a front arrives where the leaves of the row lead. Appends the links. Says whether all
/// can arrive.
fn front_leads_on(
    alloc: Global,
    setting: &Setting,
    stands: &mut Stands,
    leaving: Leaving,
    tree: &WindowTree,
    links: &mut Vec<Option<Link>>,
) -> Result<bool, OutOfMemory>
    requires left { LeavesLeft leaving.names.now setting.now.code.now.limits leaving.inside tree.now }
    requires all { AllLeft stands.old }
    ensures { OnOk result (AllLeft stands.new) }
{
    match tree {
        WindowTree::Step { rest, .. } => {
            front_leads_on(alloc, setting, stands, leaving, rest, links)
        }
        WindowTree::Test { yes, no, .. } => {
            if !front_leads_on(alloc, setting, stands, leaving, yes, links)? {
                return Ok(false);
            }
            front_leads_on(alloc, setting, stands, leaving, no, links)
        }
        WindowTree::Node { below } => {
            leaf_leads_on(alloc, setting, stands, leaving, below, links)
        }
        WindowTree::Exit { .. } => leaf_leads_on(alloc, setting, stands, leaving, tree, links),
        WindowTree::Stop => leaf_leads_on(alloc, setting, stands, leaving, tree, links),
        WindowTree::Trap { .. } => leaf_leads_on(alloc, setting, stands, leaving, tree, links),
    }
}

/// What is left at each leaf of a row arrives where the leaf leads. Gives the links; `None` where the row does not do
/// what the window's front does, or something cannot arrive.
fn leaves_lead_on(
    alloc: Global,
    setting: &Setting,
    stands: &mut Stands,
    row: &Tree,
    prepared: &Prepared,
) -> Result<Option<Vec<Option<Link>>>, OutOfMemory>
    requires arranged { IsArrangedIn (table_of setting.now.table.now) prepared.now.window }
    requires all { AllLeft stands.old }
    ensures { OnOk result (AllLeft stands.new) }
{
    let window = &prepared.window;
    let front = window.tree.front_row(alloc)?;
    let Some(helds) = match_row(alloc, prepared.facts.as_slice(), row, &front)? else {
        return Ok(None);
    };
    let mut leaves = Vec::new(alloc);
    push_leaves(&mut leaves, row)?;
    let leaving = Leaving {
        leaves: leaves.as_slice(),
        helds: helds.as_slice(),
        names: &window.names,
        inside: window.inside,
        tag: prepared.tag,
    };
    let mut links = Vec::new(alloc);
    if !front_leads_on(alloc, setting, stands, leaving, &window.tree, &mut links)? {
        return Ok(None);
    }
    Ok(Some(links))
}

/// The plan of a stand that has none; `None` where its window has no beginning.
fn new_plan(
    alloc: Global,
    setting: &Setting,
    stand: &Stand,
    left: &Window,
    row: &Tree,
) -> Result<Option<RowPlan>, OutOfMemory>
    requires { IsLeft left.now }
{
    let start = Start {
        table: setting.table,
        limits: setting.code.limits,
        left,
        opening: stand.opening,
        crosses: false,
    };
    let Some(facts) = facts_there(alloc, start, stand.facts.as_slice())? else {
        return Ok(None);
    };
    let flow = Flow {
        rows: setting.code.rows.as_slice(),
        live: setting.live,
        early: setting.early,
    };
    let goal = Goal {
        facts: facts.as_slice(),
        row,
        flow,
        care: setting.care,
    };
    let plan = plan(alloc, start, goal)?;
    Ok(Some(plan))
}

/// The plan of a stand, which is made if it has none.
fn plan_of(
    alloc: Global,
    setting: &Setting,
    stand: &Stand,
    left: &Window,
    row: &Tree,
) -> Result<Option<RowPlan>, OutOfMemory>
    requires { IsLeft left.now }
{
    if !stand.planned {
        return new_plan(alloc, setting, stand, left, row);
    }
    let steps = Vec::from_slice(alloc, stand.steps.as_slice())?;
    Ok(Some(RowPlan {
        steps,
        inside: stand.opening.inside,
    }))
}

/// A stand's window, arranged by its steps, and what goes with it; `None` where it has no beginning, or the steps are
/// not legal.
fn prepare(
    alloc: Global,
    setting: &Setting,
    stand: &Stand,
    left: &Window,
    row: &Tree,
) -> Result<Option<Prepared>, OutOfMemory>
    requires { IsLeft left.now }
    ensures { IfOk result (λ prepared. IfSome prepared (λ it. IsArrangedIn (table_of setting.now.table.now) it.window)) }
{
    let Some(RowPlan { steps, inside }) = plan_of(alloc, setting, stand, left, row)? else {
        return Ok(None);
    };
    let opening = Opening {
        enters: stand.opening.enters,
        window: stand.opening.window,
        inside,
    };
    prepare_by(alloc, setting, stand, left, opening, steps)
}

/// The key of a stand's window with this opening.
fn key_with(
    alloc: Global,
    start: Start,
    stand: &Stand,
    opening: Opening,
) -> Result<Option<Vec<u8>>, OutOfMemory>
    requires limits { AreLimits start.limits }
    requires left { IsLeft start.left.now }
{
    if opening.inside != stand.opening.inside {
        return key_there(alloc, start);
    }
    let key = Vec::from_slice(alloc, stand.key.as_slice())?;
    Ok(Some(key))
}

/// A stand's window, arranged by these steps, with this opening.
fn prepare_by(
    alloc: Global,
    setting: &Setting,
    stand: &Stand,
    left: &Window,
    opening: Opening,
    steps: Vec<Step>,
) -> Result<Option<Prepared>, OutOfMemory>
    requires { IsLeft left.now }
    ensures { IfOk result (λ prepared. IfSome prepared (λ it. IsArrangedIn (table_of setting.now.table.now) it.window)) }
{
    let start = Start {
        table: setting.table,
        limits: setting.code.limits,
        left,
        opening,
        crosses: false,
    };
    let Some(facts) = facts_there(alloc, start, stand.facts.as_slice())? else {
        return Ok(None);
    };
    let Some(key) = key_with(alloc, start, stand, opening)? else {
        return Ok(None);
    };
    match arranged(alloc, start, steps.as_slice())? {
        None => Ok(None),
        Some(window) => Ok(Some(Prepared {
            opening,
            key,
            steps,
            facts,
            window,
            tag: stand.tag,
        })),
    }
}

/// Notes that a stand is gone on from, by these steps.
fn note_plan(stands: &mut Stands, number: usize, opening: Opening, key: Vec<u8>, steps: Vec<Step>)
    requires { AllLeft stands.old }
    ensures { AllLeft stands.new }
{
    if let Some(stand) = stands.all.get_mut(number) {
        stand.opening = opening;
        stand.key = key;
        stand.steps = steps;
        stand.planned = true;
        stand.waits = false;
    }
}

/// Notes where the leaves of a stand lead.
fn note_links(stands: &mut Stands, number: usize, links: Vec<Option<Link>>)
    requires { AllLeft stands.old }
    ensures { AllLeft stands.new }
{
    if let Some(stand) = stands.all.get_mut(number) {
        stand.links = links;
    }
}

/// The window of a stand, arranged, if there is one.
#[tactic(auto, using(crate::proofs::Leaving::standing))]
fn prepared_at(
    alloc: Global,
    setting: &Setting,
    stands: &Stands,
    number: usize,
) -> Result<Option<Prepared>, OutOfMemory>
    requires { AllLeft stands.now }
    ensures { IfOk result (λ prepared. IfSome prepared (λ it. IsArrangedIn (table_of setting.now.table.now) it.window)) }
{
    let Some(stand) = stands.all.get(number) else {
        return Ok(None);
    };
    let Some(left) = stands.lefts.get(number) else {
        return Ok(None);
    };
    let Some(row) = setting.code.rows.get(stand.row as usize) else {
        return Ok(None);
    };
    prepare(alloc, setting, stand, left, row)
}

/// The row of a stand.
fn row_of<'a>(setting: &'a Setting, stands: &Stands, number: usize) -> Option<&'a Tree> {
    let stand = stands.all.get(number)?;
    setting.code.rows.get(stand.row as usize)
}

/// Goes on from a row that was reached. Says whether all that is left could arrive.
pub(crate) fn go_on(
    alloc: Global,
    setting: &Setting,
    stands: &mut Stands,
    number: usize,
) -> Result<bool, OutOfMemory>
    requires { AllLeft stands.old }
    ensures { OnOk result (AllLeft stands.new) }
{
    let Some(row) = row_of(setting, stands, number) else {
        return Ok(false);
    };
    stands.current = Some(number_of(number));
    let Some(prepared) = prepared_at(alloc, setting, stands, number)? else {
        return Ok(false);
    };
    let steps = Vec::from_slice(alloc, prepared.steps.as_slice())?;
    let key = Vec::from_slice(alloc, prepared.key.as_slice())?;
    note_plan(stands, number, prepared.opening, key, steps);
    let Some(links) = leaves_lead_on(alloc, setting, stands, row, &prepared)? else {
        return Ok(false);
    };
    note_links(stands, number, links);
    Ok(true)
}
