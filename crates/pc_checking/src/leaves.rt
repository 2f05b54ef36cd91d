//! Where the leaves of a row lead.
ghost use Rattle.std.specs.Prelude.{◌≡◌, ◌++◌, Some, length, IfOk, OnOk, MatchResult};
ghost use Rattle.pc_word.specs.Row.{leaves_of};
ghost use Rattle.pc_table.specs.StoredTable.{table_of};
ghost use Rattle.pc_machine.specs.MachineCode.{row_of};
ghost use Rattle.pc_machine.specs.WellFormed.{IsLeaf};
ghost use Rattle.pc_window.specs.Tree.{whole};
ghost use Rattle.pc_window.specs.Steps.{with_tree, front_row};
ghost use Rattle.pc_window.specs.StoredWindow.{tree_in, front_in, window_in};
ghost use Rattle.pc_matching.specs.Facts.{facts_of, helds_of};
ghost use Rattle.pc_arranging.specs.CanArrange.{IsArrangedIn};
ghost use Rattle.pc_settling.specs.Arrives.{end_of};
ghost use Rattle.pc_settling.specs.Settled.{settled};
ghost use Rattle.pc_settling.specs.Stored.{remaining_in, IsLeft};
ghost use Rattle.pc_accepted.specs.declared.flaw.LeafFlaw.TheVariants.{OtherEnd};
ghost use Rattle.pc_accepted.specs.Leading.{LeadsOn, AllLeadOn};
ghost use Rattle.pc_accepted.specs.Accepted.{with_limits};
ghost use Rattle.pc_checking.specs.models.Stored.{left_window, arrivals_in, setting_in, departure_in, outcome_of, leaves_outcome, IsSetting, IsRowOf, AreKept};

use crate::arrival::FirstArrival;
use crate::fronts::rests_of;
use crate::leading::lead;
use crate::setting::{Departure, Setting};
use pc_accepted::LeafFlaw;
use pc_machine::{Leaf, Tree};
use pc_matching::{Fact, FactList};
use pc_settling::{Remaining, ends_alike, settle};
use pc_window::{Window, WindowTree};
use pc_word::{Limits, OutOfMemory, RowTree, Seq};
use std::alloc::{AllocError, Global};

/// Leaves, in preorder.
type LeafList = Seq<Leaf>;

/// The leaf of a row that does not lead on, by its number in preorder, and why.
#[derive(Clone, Copy, Debug, PartialEq, Eq)]
pub(crate) struct LeafRefusal {
    pub(crate) leaf: u32,
    pub(crate) why: LeafFlaw,
}

/// Appends the leaves of a row, in preorder.
fn push_leaves(leaves: &mut LeafList, row: &Tree) -> Result<(), AllocError>
    ensures { OnOk result (leaves.new ≡ leaves.old ++ leaves_of (row_of row.now)) }
{
    match row {
        RowTree::Step { next, .. } => push_leaves(leaves, next),
        RowTree::Test { yes, no, .. } => {
            push_leaves(leaves, yes)?;
            push_leaves(leaves, no)
        }
        RowTree::Leaf { leaf } => leaves.push(*leaf),
    }
}

/// The leaves of a row, in preorder.
fn leaves_of(alloc: Global, row: &Tree) -> Result<LeafList, AllocError>
    ensures { IfOk result (λ leaves. leaves ≡ leaves_of (row_of row.now)) }
{
    let mut leaves = LeafList::new(alloc);
    push_leaves(&mut leaves, row)?;
    Ok(leaves)
}

/// What is left of an arranged window at a leaf, under these limits, settled.
#[tactic(auto, using(crate::proofs::LeftAtLeaves::copied_rest))]
fn left_at_leaf(
    alloc: Global,
    limits: Limits,
    arranged: &Window,
    rest: WindowTree,
    held: &[Fact],
) -> Result<Remaining, OutOfMemory>
    requires { IsLeft (left_window arranged.now limits rest) }
    ensures settled { IfOk result (λ left. remaining_in left ≡ settled (with_tree (with_limits limits (window_in arranged.now)) (tree_in rest)) (facts_of held.now)) }
    ensures left { IfOk result (λ left. IsLeft left.window) }
{
    let names = arranged.names.copy(alloc)?;
    let facts = FactList::from_slice(alloc, held)?;
    let window = Window {
        tree: rest,
        names,
        limits,
        inside: arranged.inside,
    };
    settle(alloc, window, facts)
}

/// Whether a leaf that is an end ends as what is left does.
fn end_alike(leaf: Leaf, window: &Window) -> Result<(), LeafFlaw>
    ensures { MatchResult result (λ _. end_of (whole (window_in window.now).front) ≡ Some leaf)
        (λ why. (why ≡ OtherEnd) × (end_of (whole (window_in window.now).front) ≡ Some leaf → ⊥)) }
{
    if !ends_alike(leaf, window) {
        return Err(LeafFlaw::OtherEnd);
    }
    Ok(())
}

/// A leaf at which this is left ends alike, or leads to the entry of the row that comes next.
fn lead_on(
    alloc: Global,
    setting: &Setting,
    departure: Departure,
    left: Remaining,
    leaf: Leaf,
    arrivals: &mut [Option<FirstArrival>],
) -> Result<Result<(), LeafFlaw>, OutOfMemory>
    requires setting { IsSetting setting.now }
    requires leaf { IsLeaf (length setting.now.code.now.rows) leaf }
    requires left { IsLeft left.window }
    requires kept { AreKept setting.now arrivals.old }
    ensures leads { IfOk result (λ outcome. LeadsOn (setting_in setting.now) (departure_in departure) (remaining_in left) (arrivals_in arrivals.old) leaf
        (outcome_of (arrivals_in arrivals.new) outcome)) }
    ensures kept { OnOk result (AreKept setting.now arrivals.new) }
{
    match leaf {
        Leaf::Goto { row } => lead(alloc, setting, Some(departure), left, row, arrivals),
        Leaf::Stop | Leaf::Trap { .. } => Ok(end_alike(leaf, &left.window)),
    }
}

/// A leaf behind which this tree of an arranged window stands leads on from what is left of it, settled.
fn leaf_leads_on(
    alloc: Global,
    setting: &Setting,
    departure: Departure,
    arranged: &Window,
    rest: WindowTree,
    held: &FactList,
    leaf: Leaf,
    arrivals: &mut [Option<FirstArrival>],
) -> Result<Result<(), LeafFlaw>, OutOfMemory>
    requires setting { IsSetting setting.now }
    requires left { IsLeft (left_window arranged.now setting.now.code.now.limits rest) }
    requires leaf { IsLeaf (length setting.now.code.now.rows) leaf }
    requires kept { AreKept setting.now arrivals.old }
    ensures leads { IfOk result (λ outcome. LeadsOn (setting_in setting.now) (departure_in departure)
        (settled (with_tree (with_limits setting.now.code.now.limits (window_in arranged.now)) (tree_in rest)) (facts_of held.now)) (arrivals_in arrivals.old) leaf
        (outcome_of (arrivals_in arrivals.new) outcome)) }
    ensures kept { OnOk result (AreKept setting.now arrivals.new) }
{
    let limits = setting.code.limits;
    let left = left_at_leaf(alloc, limits, arranged, rest, held.as_slice())?;
    lead_on(alloc, setting, departure, left, leaf, arrivals)
}

/// The leaves of a row lead on, one after the other; or the first that does not.
pub(crate) fn leaves_lead_on(
    alloc: Global,
    setting: &Setting,
    departure: Departure,
    row: &Tree,
    arranged: &Window,
    helds: &[FactList],
    arrivals: &mut [Option<FirstArrival>],
) -> Result<Result<(), LeafRefusal>, OutOfMemory>
    requires setting { IsSetting setting.now }
    requires row { IsRowOf setting.now (row_of row.now) }
    requires arranged { IsArrangedIn (table_of setting.now.table.now) arranged.now }
    requires leaves { length helds.now ≡ length (leaves_of (row_of row.now)) }
    requires rests { length helds.now ≡ length (leaves_of (front_row (λ tree. tree) (front_in arranged.now.tree))) }
    requires kept { AreKept setting.now arrivals.old }
    ensures lead { IfOk result (λ outcome. AllLeadOn (setting_in setting.now) (departure_in departure) (with_limits setting.now.code.now.limits (window_in arranged.now)) 0
        (arrivals_in arrivals.old) (helds_of helds.now) (leaves_of (row_of row.now)) (leaves_of (front_row (λ tree. tree) (front_in arranged.now.tree)))
        (leaves_outcome (arrivals_in arrivals.new) outcome)) }
    ensures kept { OnOk result (AreKept setting.now arrivals.new) }
{
    let leaves = leaves_of(alloc, row)?;
    let leaves = leaves.as_slice();
    let mut rests = rests_of(alloc, &arranged.tree)?;
    rests.reverse();
    let mut leaf = 0;
    while let Some(rest) = rests.pop() {
        let held = &helds[leaf as usize];
        let next = leaves[leaf as usize];
        let led = leaf_leads_on(
            alloc, setting, departure, arranged, rest, held, next, arrivals,
        )?;
        if let Err(why) = led {
            return Ok(Err(LeafRefusal { leaf, why }));
        }
        leaf += 1;
    }
    Ok(Ok(()))
}
