//! The rows of packed regions: one for each state, on registers.
ghost use Rattle.std.specs.Prelude.{◌≡◌, ◌+◌, ◌*◌, ◌<◌, ◌≤◌, [], ◌∷◌, length, slice_get, IfOk, OnOk};
ghost use Rattle.pc_word.specs.Row.{leaves_of};
ghost use Rattle.pc_automaton.specs.AutomatonRun.{state_parameters};
ghost use Rattle.pc_machine.specs.declared.tree.Leaf.TheVariants.{Goto};
ghost use Rattle.pc_machine.specs.MachineCode.{row_of, rows_of};
ghost use Rattle.pc_object.specs.ObjectText.{leaf_text, row_text};
ghost use Rattle.pc_emit.specs.Registers.{argument_moves, home_moves};
ghost use Rattle.pc_emit.specs.Emitting.{HasForm};
ghost use Rattle.pc_emit.specs.Bytes.{passed_bytes, leaf_bytes, row_bytes, states_bytes};
ghost use Rattle.pc_emit.specs.models.Output.{bytes_of, of_state, EachCopy, OutputGrows};
ghost use Rattle.pc_emit.specs.models.Layout.{emission_in, rows_end, forms_at, names_at, registers_at, states_at, table_in, IsPlan, IsSite};
ghost use Rattle.pc_emit.specs.models.Packing.{CanMove, CanMakeLeaf, CanMakeRow, LeafMade, RowMade, StatesMade, MovesAlong, MovesToRegion};
ghost use Rattle.pc_emit.specs.models.Making.{IsOnTheWay, LeavesReached, RowsReached};
ghost use Rattle.pc_word.specs.StoredRow.{row_in};
ghost use Rattle.pc_object.specs.Sizes.{goto_bytes};

use crate::error::EmitError;
use crate::names::{StateNames, argument_moves, home_moves};
use crate::output::Output;
use crate::passing::move_along;
use crate::plan::Plan;
use crate::trees::{with_item, with_test};
use pc_assign::Assigned;
use pc_automaton::{Automaton, AutomatonLeaf};
use pc_machine::{Leaf, Tree};
use pc_window::Home;
use pc_word::{Operand, RowTree};
use std::alloc::Global;

/// A packed region: its automaton with registers for names, and the row at which it begins.
#[derive(Clone, Copy)]
pub(crate) struct PackedSite<'a> {
    pub(crate) region: u32,
    pub(crate) first: u32,
    pub(crate) automaton: &'a Automaton,
    pub(crate) registers: &'a Assigned,
}

/// Appends the rows of the states of a packed region to others.
#[tactic(auto, using(crate::proofs::States::states))]
pub(crate) fn state_rows(
    alloc: Global,
    plan: &Plan,
    site: &PackedSite,
    output: &mut Output,
) -> Result<(), EmitError>
    requires site { IsSite plan.now site.now }
    requires plan { IsPlan plan.now }
    requires base { output.old.base ≡ rows_end plan.now }
    requires begins { length output.old.rows ≡ site.now.first }
    ensures grows { OnOk result (OutputGrows output.old output.new) }
    ensures count { OnOk result (length output.new.rows ≡ length output.old.rows + length site.now.automaton.now) }
    ensures made { OnOk result (StatesMade plan.now site.now (length site.now.automaton.now) output.new) }
    ensures ways { OnOk result (EachCopy (IsOnTheWay plan.now (RowsReached (length output.old.rows) (length output.new.rows))) output.old output.new) }
    ensures short { OnOk result (bytes_of (rows_of output.new.rows) + bytes_of (rows_of output.new.copies.items)
        ≤ bytes_of (rows_of output.old.rows) + bytes_of (rows_of output.old.copies.items) + states_bytes (states_at site.now)) }
{
    for state in 0..site.automaton.count() {
        let names = StateNames {
            registers: site.registers,
            state,
        };
        let row = &site.automaton.state(state).row;
        let row = packed_row(alloc, plan, site, &names, row, output)?;
        output.push_row(row)?;
    }
    Ok(())
}

/// The row of a state, or of a part of it, with these registers for its names.
#[tactic(auto, using(crate::proofs::Packs::rows, crate::proofs::Passings::passings))]
fn packed_row(
    alloc: Global,
    plan: &Plan,
    site: &PackedSite,
    names: &StateNames,
    row: &RowTree<AutomatonLeaf>,
    output: &mut Output,
) -> Result<Tree, EmitError>
    requires site { IsSite plan.now site.now }
    requires plan { IsPlan plan.now }
    requires base { output.old.base ≡ rows_end plan.now }
    requires can { CanMakeRow plan.now site.now (of_state names.now) (row_in (λ leaf. leaf) row.now) }
    ensures grows { OnOk result (OutputGrows output.old output.new) }
    ensures rows { OnOk result (output.new.rows ≡ output.old.rows) }
    ensures made { IfOk result (λ tree. RowMade plan.now site.now (of_state names.now) output.new (row_in (λ leaf. leaf) row.now) (row_of tree)) }
    ensures ways { IfOk result (λ tree. EachCopy (IsOnTheWay plan.now (LeavesReached (leaves_of (row_of tree)))) output.old output.new) }
    ensures short { IfOk result (λ tree. bytes_of (rows_of output.new.copies.items) + length (row_text (row_of tree))
        ≤ bytes_of (rows_of output.old.copies.items) + row_bytes (row_in (λ leaf. leaf) row.now)) }
{
    match row {
        RowTree::Step { item, next } => {
            let next = packed_row(alloc, plan, site, names, next, output)?;
            Ok(with_item(alloc, names.item(*item), next)?)
        }
        RowTree::Test { on, yes, no } => {
            let yes = packed_row(alloc, plan, site, names, yes, output)?;
            let no = packed_row(alloc, plan, site, names, no, output)?;
            Ok(with_test(alloc, names.operand(*on), yes, no)?)
        }
        RowTree::Leaf { leaf } => {
            let leaf = packed_leaf(alloc, plan, site, names, leaf, output)?;
            Ok(RowTree::Leaf { leaf })
        }
    }
}

/// The leaf that leads on from a leaf of an automaton, through the copies that pass its arguments or homes.
#[tactic(auto, using(crate::proofs::Packs::leaves, crate::proofs::Passings::passings))]
fn packed_leaf(
    alloc: Global,
    plan: &Plan,
    site: &PackedSite,
    names: &StateNames,
    leaf: &AutomatonLeaf,
    output: &mut Output,
) -> Result<Leaf, EmitError>
    requires site { IsSite plan.now site.now }
    requires plan { IsPlan plan.now }
    requires base { output.old.base ≡ rows_end plan.now }
    requires can { CanMakeLeaf (emission_in plan.now) (states_at site.now) (registers_at site.now) (of_state names.now) leaf.now }
    ensures grows { OnOk result (OutputGrows output.old output.new) }
    ensures rows { OnOk result (output.new.rows ≡ output.old.rows) }
    ensures made { IfOk result (λ made. LeafMade plan.now site.now (of_state names.now) output.new leaf.now made) }
    ensures ways { IfOk result (λ made. EachCopy (IsOnTheWay plan.now (LeavesReached (made ∷ []))) output.old output.new) }
    ensures short { IfOk result (λ made. bytes_of (rows_of output.new.copies.items) + length (leaf_text made)
        ≤ bytes_of (rows_of output.old.copies.items) + leaf_bytes leaf.now) }
{
    match leaf {
        AutomatonLeaf::To { state, arguments } => {
            to_state(
                alloc,
                plan,
                site,
                names,
                *state,
                arguments.as_slice(),
                output,
            )
        }
        AutomatonLeaf::Out { region, homes } => {
            to_region(alloc, plan, site, names, *region, homes.as_slice(), output)
        }
        AutomatonLeaf::Stop => Ok(Leaf::Stop),
        AutomatonLeaf::Trap { kind, line } => Ok(Leaf::Trap {
            kind: *kind,
            line: *line,
        }),
    }
}

/// The leaf that leads to a state, through the copies that pass it arguments.
#[tactic(auto, using(crate::proofs::Packs::leaves, crate::proofs::Passings::passings))]
fn to_state(
    alloc: Global,
    plan: &Plan,
    site: &PackedSite,
    names: &StateNames,
    state: u32,
    arguments: &[Operand],
    output: &mut Output,
) -> Result<Leaf, EmitError>
    requires site { IsSite plan.now site.now }
    requires plan { IsPlan plan.now }
    requires base { output.old.base ≡ rows_end plan.now }
    requires there { state < length site.now.automaton.now }
    requires as_many { length arguments.now ≡ length (state_parameters (slice_get (states_at site.now) state)) }
    requires moves { CanMove (registers_at site.now).scratch
        (argument_moves (of_state names.now) (names_at site.now state) (state_parameters (slice_get (states_at site.now) state)) arguments.now) }
    ensures grows { OnOk result (OutputGrows output.old output.new) }
    ensures rows { OnOk result (output.new.rows ≡ output.old.rows) }
    ensures moved { IfOk result (λ made. MovesAlong plan.now (registers_at site.now).scratch output.new made
        (argument_moves (of_state names.now) (names_at site.now state) (state_parameters (slice_get (states_at site.now) state)) arguments.now)
        (Goto ((emission_in plan.now).places.state site.now.region state))) }
    ensures ways { IfOk result (λ made. EachCopy (IsOnTheWay plan.now (LeavesReached (made ∷ []))) output.old output.new) }
    ensures short { IfOk result (λ made. bytes_of (rows_of output.new.copies.items) + length (leaf_text made)
        ≤ bytes_of (rows_of output.old.copies.items) + (goto_bytes + passed_bytes * length arguments.now)) }
{
    let parameters = site.automaton.state(state).parameters.as_slice();
    let passed = StateNames {
        registers: site.registers,
        state,
    };
    let moves = argument_moves(alloc, names, &passed, parameters, arguments)?;
    let row = site.first + state;
    let scratch = site.registers.scratch();
    let to = Leaf::Goto { row };
    move_along(alloc, plan, scratch, moves.as_slice(), to, output)
}

/// The leaf that leads to a region, through the copies that bring variables home.
#[tactic(auto, using(crate::proofs::Packs::leaves, crate::proofs::Passings::passings))]
fn to_region(
    alloc: Global,
    plan: &Plan,
    site: &PackedSite,
    names: &StateNames,
    region: u32,
    homes: &[Home],
    output: &mut Output,
) -> Result<Leaf, EmitError>
    requires site { IsSite plan.now site.now }
    requires plan { IsPlan plan.now }
    requires base { output.old.base ≡ rows_end plan.now }
    requires form { HasForm (table_in plan.now) (forms_at plan.now) region }
    requires moves { CanMove (registers_at site.now).scratch (home_moves (of_state names.now) homes.now) }
    ensures grows { OnOk result (OutputGrows output.old output.new) }
    ensures rows { OnOk result (output.new.rows ≡ output.old.rows) }
    ensures moved { IfOk result (λ made. MovesToRegion plan.now (registers_at site.now).scratch output.new made (home_moves (of_state names.now) homes.now) region) }
    ensures ways { IfOk result (λ made. EachCopy (IsOnTheWay plan.now (LeavesReached (made ∷ []))) output.old output.new) }
    ensures short { IfOk result (λ made. bytes_of (rows_of output.new.copies.items) + length (leaf_text made)
        ≤ bytes_of (rows_of output.old.copies.items) + (goto_bytes + passed_bytes * length homes.now)) }
{
    let leaf = plan.leaf_to(region);
    let moves = home_moves(alloc, names, homes)?;
    let scratch = site.registers.scratch();
    move_along(alloc, plan, scratch, moves.as_slice(), leaf, output)
}
