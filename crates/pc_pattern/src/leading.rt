//! Rows of states: a cut row with new names, whose leaves lead on.
ghost use Rattle.std.specs.Prelude.{◌≡◌, ◌+◌, ◌<◌, ◌≤◌, ◌^◌, length, true, None, IfOk, IfErr, IfSome, OnOk};
ghost use Rattle.std.specs.List.{AllByRecursion};
ghost use Rattle.pc_word.specs.Row.{Then, Either, items_of};
ghost use Rattle.pc_table.specs.StoredTable.{table_of};
ghost use Rattle.pc_window.specs.Tree.{tree_size};
ghost use Rattle.pc_window.specs.Unwinding.{most_unwound};
ghost use Rattle.pc_window.specs.Steps.{IsProper, EachLeft, LeftIs};
ghost use Rattle.pc_window.specs.StoredWindow.{tree_in, window_in, InNodes};
ghost use Rattle.pc_automaton.specs.StoredLeft.{left_in, LeftInNodes};
ghost use Rattle.pc_window.specs.Steps.{Rebases};
ghost use Rattle.pc_window.specs.Tree.{whole};
ghost use Rattle.pc_window.specs.Names.{parameters_of};
ghost use Rattle.pc_automaton.specs.declared.automaton.AutomatonLeaf.TheVariants.{To};
ghost use Rattle.pc_pattern.specs.Searches.{Rules, Settles, bare_leaf};
ghost use Rattle.pc_pattern.specs.models.Seen.{AreSeen, KeepsSeen, WasMet, LeadsToKept, RebasedLeads, RebasedRefused};
ghost use Rattle.pc_pattern.specs.models.Renaming.{pairs_in, renamed_bare, arguments_for};
ghost use Rattle.pc_pattern.specs.models.Pools.{pool_in, keys_in, CanBringOn, IsNumbered, IsRebased, IsSettled};
ghost use Rattle.pc_pattern.specs.models.Leading.{rules_within, WindowLeads, LeftLeads, RowLeads, WindowRefused, LeftRefused, RowRefused};
ghost use Rattle.pc_word.specs.Naming.{with_dest};
ghost use Rattle.pc_word.specs.StoredRow.{row_in, EachLeaf};

use crate::error::SearchError;
use crate::member_key::MemberKey;
use crate::pool::{Pool, numbered};
use crate::renaming::{Renaming, arguments_for, renamed_homes};
use crate::seen::{Met, Seen, met_as, names_at};
use pc_automaton::{AutomatonLeaf, Left};
use pc_canon::{WindowKey, key};
use pc_rebase::rebase;
use pc_table::RegionTable;
use pc_unify::tidy;
use pc_unwind::unwind;
use pc_window::{NumberList, Window, WindowError, WindowTree};
use pc_word::{Extent, Item, Limits, Operand, RowTree};
use std::alloc::{AllocError, Global};

/// The bounds of a search.
#[derive(Clone, Copy, Debug)]
pub(crate) struct Bounds {
    /// How much a row may hold.
    pub(crate) limits: Limits,
    /// How far a window is unwound, and how many rows there may be.
    pub(crate) extent: Extent,
}

/// What is left at a leaf, rebased.
#[tactic(auto, using(crate::proofs::Steps::steps))]
fn rebased(alloc: Global, table: &RegionTable, window: Window) -> Result<Window, WindowError>
    requires able { CanBringOn (table_of table.now) (window_in window) }
    requires nodes { InNodes true window.tree }
    ensures rebases { IfOk result (λ later. Rebases (window_in window) (window_in later)) }
    ensures able { IfOk result (λ later. IsRebased (table_of table.now) later) }
{
    let window = rebase(alloc, window)?;
    Ok(window)
}

/// A rebased window, unwound and tidied.
#[tactic(auto, using(crate::proofs::Steps::steps))]
fn settled(
    alloc: Global,
    table: &RegionTable,
    window: Window,
    bounds: Bounds,
) -> Result<Window, WindowError>
    requires able { IsRebased (table_of table.now) window }
    ensures settles { IfOk result (λ later. Settles (rules_within (table_of table.now) bounds) (window_in window) (window_in later)) }
    ensures settled { IfOk result IsSettled }
    ensures proper { IfOk result (λ later. IsProper (window_in later)) }
    ensures size { IfOk result (λ later. tree_size (tree_in later.tree) ≤ most_unwound) }
    ensures names { IfOk result (λ later. length later.names.forms < 2 ^ 31) }
{
    let window = unwind(alloc, window, table, bounds.extent.window)?;
    let window = tidy(alloc, window)?;
    Ok(window)
}

/// The leaf that a window is which has no items and tests.
fn bare_leaf(
    alloc: Global,
    names: &Renaming,
    tree: &WindowTree,
) -> Result<Option<AutomatonLeaf>, AllocError>
    requires { InNodes true tree.now }
    ensures { IfOk result (λ leaf. leaf ≡ renamed_bare (pairs_in names.now) (bare_leaf (tree_in tree.now))) }
{
    match tree {
        WindowTree::Step { .. } => Ok(None),
        WindowTree::Test { .. } => Ok(None),
        // At the root of a window that is kept in nodes stands no further node.
        WindowTree::Node { .. } => unreachable!(),
        WindowTree::Exit { region, homes, .. } => {
            let homes = renamed_homes(alloc, names, homes.as_slice())?;
            Ok(Some(AutomatonLeaf::Out {
                region: *region,
                homes,
            }))
        }
        WindowTree::Stop => Ok(Some(AutomatonLeaf::Stop)),
        WindowTree::Trap { kind, line } => Ok(Some(AutomatonLeaf::Trap {
            kind: *kind,
            line: *line,
        })),
    }
}

/// A member of a search: its number, and the parameters, in the order of first use, of a window with its key.
#[derive(Debug, Drop)]
struct Member {
    number: u32,
    parameters: NumberList,
}

/// The member with the key of a window that was brought on.
#[tactic(auto, using(crate::proofs::Steps::leaves))]
fn member_of(
    alloc: Global,
    window: Window,
    pool: &mut Pool,
    rows: u16,
) -> Result<Member, SearchError>
    requires proper { IsProper (window_in window) }
    requires settled { IsSettled window }
    requires size { tree_size (tree_in window.tree) ≤ most_unwound }
    requires names { length window.names.forms < 2 ^ 31 }
    requires bare { bare_leaf (whole (window_in window).front) ≡ None }
    requires room { length pool.old.keys.keys ≤ rows }
    ensures numbered { IfOk result (λ member. IsNumbered (pool_in pool.old) (window_in window) member.number (pool_in pool.new)) }
    ensures parameters { IfOk result (λ member. member.parameters ≡ parameters_of (whole (window_in window).front)) }
    ensures settled { OnOk result (AllByRecursion IsSettled pool.old.waiting.items → AllByRecursion IsSettled pool.new.waiting.items) }
    ensures seen { pool.new.seen ≡ pool.old.seen }
    ensures room { OnOk result (length pool.new.keys.keys ≤ rows) }
    ensures refused { IfErr result (λ error. WindowRefused rows (pool_in pool.old) (window_in window) error) }
{
    let WindowKey {
        bytes,
        names: parameters,
        ..
    } = key(alloc, &window)?;
    let key = MemberKey { bytes };
    let number = numbered(alloc, window, parameters.as_slice(), key, pool, rows)?;
    Ok(Member { number, parameters })
}

/// The leaf that leads to a member.
fn leaf_to(alloc: Global, names: &Renaming, member: &Member) -> Result<AutomatonLeaf, AllocError>
    ensures { IfOk result (λ leaf. leaf ≡ To member.now.number (arguments_for (pairs_in names.now) member.now.parameters)) }
{
    let arguments = arguments_for(alloc, names, member.parameters.as_slice())?;
    Ok(AutomatonLeaf::To {
        state: member.number,
        arguments,
    })
}

/// The leaf that a window becomes which was brought on: it leads to the member with the same key, where
/// something is left to do in it.
#[tactic(auto, using(crate::proofs::Steps::leaves))]
fn led_window(
    alloc: Global,
    names: &Renaming,
    window: Window,
    pool: &mut Pool,
    rows: u16,
) -> Result<AutomatonLeaf, SearchError>
    requires proper { IsProper (window_in window) }
    requires settled { IsSettled window }
    requires size { tree_size (tree_in window.tree) ≤ most_unwound }
    requires names { length window.names.forms < 2 ^ 31 }
    requires room { length pool.old.keys.keys ≤ rows }
    ensures leads { IfOk result (λ leaf. WindowLeads (pairs_in names.now) (pool_in pool.old) (window_in window) leaf (pool_in pool.new)) }
    ensures settled { OnOk result (AllByRecursion IsSettled pool.old.waiting.items → AllByRecursion IsSettled pool.new.waiting.items) }
    ensures seen { OnOk result ((rules : Rules) → KeepsSeen rules pool.old pool.new) }
    ensures room { OnOk result (length pool.new.keys.keys ≤ rows) }
    ensures refused { IfErr result (λ error. WindowRefused rows (pool_in pool.old) (window_in window) error) }
{
    match bare_leaf(alloc, names, &window.tree)? {
        Some(leaf) => Ok(leaf),
        None => {
            let member = member_of(alloc, window, pool, rows)?;
            Ok(leaf_to(alloc, names, &member)?)
        }
    }
}

/// The same of a window that was met before it was unwound: the member is kept for it.
#[tactic(auto, using(crate::proofs::Steps::leaves))]
fn led_met(
    alloc: Global,
    names: &Renaming,
    window: Window,
    met: Met,
    pool: &mut Pool,
    rows: u16,
) -> Result<AutomatonLeaf, SearchError>
    requires proper { IsProper (window_in window) }
    requires settled { IsSettled window }
    requires size { tree_size (tree_in window.tree) ≤ most_unwound }
    requires names { length window.names.forms < 2 ^ 31 }
    requires room { length pool.old.keys.keys ≤ rows }
    ensures leads { IfOk result (λ leaf. WindowLeads (pairs_in names.now) (pool_in pool.old) (window_in window) leaf (pool_in pool.new)) }
    ensures settled { OnOk result (AllByRecursion IsSettled pool.old.waiting.items → AllByRecursion IsSettled pool.new.waiting.items) }
    ensures seen { OnOk result ((rules : Rules) → WasMet rules pool.old.seen met (window_in window) → KeepsSeen rules pool.old pool.new) }
    ensures room { OnOk result (length pool.new.keys.keys ≤ rows) }
    ensures refused { IfErr result (λ error. WindowRefused rows (pool_in pool.old) (window_in window) error) }
{
    match bare_leaf(alloc, names, &window.tree)? {
        Some(leaf) => Ok(leaf),
        None => {
            let member = member_of(alloc, window, pool, rows)?;
            pool.seen
                .keep(alloc, &met, member.number, member.parameters.as_slice())?;
            Ok(leaf_to(alloc, names, &member)?)
        }
    }
}

/// The leaf that leads to the member which is kept for a left window that was met, if one is kept.
fn leaf_to_kept(
    alloc: Global,
    names: &Renaming,
    met: &Met,
    seen: &Seen,
) -> Result<Option<AutomatonLeaf>, AllocError>
    ensures { IfOk result (λ found. IfSome found (λ leaf. LeadsToKept (pairs_in names.now) met.now seen.now leaf)) }
{
    let Some(kept) = seen.member_at(met.place) else {
        return Ok(None);
    };
    let Some(parameters) = names_at(alloc, met.parameters.as_slice(), kept.places.as_slice())?
    else {
        return Ok(None);
    };
    let number = kept.number;
    let leaf = leaf_to(alloc, names, &Member { number, parameters })?;
    Ok(Some(leaf))
}

/// The leaf that stands for a rebased window. Where it is worth its key, the window is looked for among those that
/// were met before it is unwound.
#[tactic(auto, using(crate::proofs::Steps::leaves))]
fn led_rebased(
    alloc: Global,
    table: &RegionTable,
    names: &Renaming,
    window: Window,
    pool: &mut Pool,
    bounds: Bounds,
) -> Result<AutomatonLeaf, SearchError>
    requires able { IsRebased (table_of table.now) window }
    requires room { length pool.old.keys.keys ≤ bounds.extent.rows }
    requires seen { AreSeen (rules_within (table_of table.now) bounds) (keys_in pool.old.keys.keys) pool.old.seen }
    ensures leads { IfOk result (λ leaf. RebasedLeads (rules_within (table_of table.now) bounds) (pairs_in names.now) (pool_in pool.old) (window_in window) leaf (pool_in pool.new)) }
    ensures settled { OnOk result (AllByRecursion IsSettled pool.old.waiting.items → AllByRecursion IsSettled pool.new.waiting.items) }
    ensures seen { OnOk result (AreSeen (rules_within (table_of table.now) bounds) (keys_in pool.new.keys.keys) pool.new.seen) }
    ensures room { OnOk result (length pool.new.keys.keys ≤ bounds.extent.rows) }
    ensures refused { IfErr result (λ error. RebasedRefused (rules_within (table_of table.now) bounds) bounds.extent.rows (pool_in pool.old) (window_in window) error) }
{
    if !pool.seen.is_worth_a_look(pool.keys.len()) {
        let window = settled(alloc, table, window, bounds)?;
        let leaf = led_window(alloc, names, window, pool, bounds.extent.rows)?;
        return Ok(leaf);
    }
    let met = met_as(alloc, &window, &mut pool.seen)?;
    if let Some(leaf) = leaf_to_kept(alloc, names, &met, &pool.seen)? {
        return Ok(leaf);
    }
    let window = settled(alloc, table, window, bounds)?;
    let leaf = led_met(alloc, names, window, met, pool, bounds.extent.rows)?;
    Ok(leaf)
}

/// The leaf that stands for what is left at a leaf of a cut row.
#[tactic(auto, using(crate::proofs::Steps::leaves))]
fn led_left(
    alloc: Global,
    table: &RegionTable,
    names: &Renaming,
    left: Left,
    pool: &mut Pool,
    bounds: Bounds,
) -> Result<AutomatonLeaf, SearchError>
    requires able { LeftIs (CanBringOn (table_of table.now)) (left_in left) }
    requires nodes { LeftInNodes left }
    requires room { length pool.old.keys.keys ≤ bounds.extent.rows }
    requires seen { AreSeen (rules_within (table_of table.now) bounds) (keys_in pool.old.keys.keys) pool.old.seen }
    ensures leads { IfOk result (λ leaf. LeftLeads (rules_within (table_of table.now) bounds) (pairs_in names.now) (pool_in pool.old) (left_in left) leaf (pool_in pool.new)) }
    ensures settled { OnOk result (AllByRecursion IsSettled pool.old.waiting.items → AllByRecursion IsSettled pool.new.waiting.items) }
    ensures seen { OnOk result (AreSeen (rules_within (table_of table.now) bounds) (keys_in pool.new.keys.keys) pool.new.seen) }
    ensures room { OnOk result (length pool.new.keys.keys ≤ bounds.extent.rows) }
    ensures refused { IfErr result (λ error. LeftRefused (rules_within (table_of table.now) bounds) bounds.extent.rows (pool_in pool.old) (left_in left) error) }
{
    match left {
        Left::Rest { window } => {
            let window = rebased(alloc, table, window)?;
            led_rebased(alloc, table, names, window, pool, bounds)
        }
        Left::Out { region, homes } => {
            let homes = renamed_homes(alloc, names, homes.as_slice())?;
            Ok(AutomatonLeaf::Out { region, homes })
        }
        Left::Stop => Ok(AutomatonLeaf::Stop),
        Left::Trap { kind, line } => Ok(AutomatonLeaf::Trap { kind, line }),
    }
}

/// An item above a row, which writes this name, if any.
fn step(
    alloc: Global,
    name: u32,
    item: Item,
    below: RowTree<AutomatonLeaf>,
) -> Result<RowTree<AutomatonLeaf>, AllocError>
    ensures { IfOk result (λ row. row_in (λ leaf. leaf) row ≡ Then (with_dest name item) (row_in (λ leaf. leaf) below)) }
{
    let item = item.with_dest(name);
    let next = Box::new(alloc, below)?;
    Ok(RowTree::Step { item, next })
}

/// A test above two rows.
fn test(
    alloc: Global,
    on: Operand,
    yes: RowTree<AutomatonLeaf>,
    no: RowTree<AutomatonLeaf>,
) -> Result<RowTree<AutomatonLeaf>, AllocError>
    ensures { IfOk result (λ row. row_in (λ leaf. leaf) row ≡ Either on (row_in (λ leaf. leaf) yes) (row_in (λ leaf. leaf) no)) }
{
    let yes = Box::new(alloc, yes)?;
    let no = Box::new(alloc, no)?;
    Ok(RowTree::Test { on, yes, no })
}

/// A row of a state for a cut row: each place that writes a name writes the next new one, and each
/// leaf leads on.
#[tactic(auto, using(crate::proofs::Steps::rows))]
pub(crate) fn led(
    alloc: Global,
    table: &RegionTable,
    row: RowTree<Left>,
    names: &Renaming,
    next: &mut u32,
    pool: &mut Pool,
    bounds: Bounds,
) -> Result<RowTree<AutomatonLeaf>, SearchError>
    requires able { EachLeft (CanBringOn (table_of table.now)) (row_in left_in row) }
    requires nodes { EachLeaf LeftInNodes row }
    requires fits { next.old + length (items_of (row_in left_in row)) < 2 ^ 32 }
    requires room { length pool.old.keys.keys ≤ bounds.extent.rows }
    requires seen { AreSeen (rules_within (table_of table.now) bounds) (keys_in pool.old.keys.keys) pool.old.seen }
    ensures leads { IfOk result (λ later. RowLeads (rules_within (table_of table.now) bounds) (pairs_in names.now) next.old (pool_in pool.old) (row_in left_in row) (row_in (λ leaf. leaf) later) next.new (pool_in pool.new)) }
    ensures counted { OnOk result (next.new ≡ next.old + length (items_of (row_in left_in row))) }
    ensures settled { OnOk result (AllByRecursion IsSettled pool.old.waiting.items → AllByRecursion IsSettled pool.new.waiting.items) }
    ensures seen { OnOk result (AreSeen (rules_within (table_of table.now) bounds) (keys_in pool.new.keys.keys) pool.new.seen) }
    ensures room { OnOk result (length pool.new.keys.keys ≤ bounds.extent.rows) }
    ensures refused { IfErr result (λ error. RowRefused (rules_within (table_of table.now) bounds) bounds.extent.rows (pool_in pool.old) (row_in left_in row) error) }
{
    match row {
        RowTree::Step { item, next: below } => {
            let other = *next;
            *next += 1;
            let below = Box::into_inner(below);
            match item.dest() {
                None => {
                    let below = led(alloc, table, below, names, next, pool, bounds)?;
                    Ok(step(alloc, other, item, below)?)
                }
                Some(one) => {
                    let above = names;
                    let names = Renaming::Written { one, other, above };
                    let below = led(alloc, table, below, &names, next, pool, bounds)?;
                    Ok(step(alloc, other, item, below)?)
                }
            }
        }
        RowTree::Test { on, yes, no } => {
            let yes = Box::into_inner(yes);
            let no = Box::into_inner(no);
            let yes = led(alloc, table, yes, names, next, pool, bounds)?;
            let no = led(alloc, table, no, names, next, pool, bounds)?;
            Ok(test(alloc, on, yes, no)?)
        }
        RowTree::Leaf { leaf } => {
            let leaf = led_left(alloc, table, names, leaf, pool, bounds)?;
            Ok(RowTree::Leaf { leaf })
        }
    }
}
