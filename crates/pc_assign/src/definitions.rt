//! Registers of the names that a row defines.
ghost use Rattle.std.specs.Prelude.{◌≡◌, ◌≤◌, ◌||◌, ℕ, length, OnOk};
ghost use Rattle.pc_window.specs.Rebasing.{is_in};
ghost use Rattle.pc_assign.specs.Uses.{row_uses};
ghost use Rattle.pc_assign.specs.Pressure.{most_scratch};
ghost use Rattle.pc_assign.specs.models.Choosing.{member, AreMost, used_holds, IsHeld, IsChosen, AreChosen};
ghost use Rattle.pc_word.specs.StoredRow.{row_in};

use crate::assigned::RegisterList;
use crate::register_set::RegisterSet;
use crate::uses::used_in;
use pc_automaton::AutomatonLeaf;
use pc_word::RowTree;
use std::alloc::AllocError;

/// Parameters, their registers in the same order, these as a set, and the register that no name has.
#[derive(Clone, Copy)]
pub(crate) struct Held<'a> {
    pub(crate) parameters: &'a [u32],
    pub(crate) registers: &'a [u32],
    pub(crate) taken: RegisterSet,
    pub(crate) scratch: u8,
}

/// Appends the registers of the names that a row defines to others, in preorder. `above` has those
/// of the names that are defined above it.
pub(crate) fn define(
    held: &Held,
    above: RegisterSet,
    row: &RowTree<AutomatonLeaf>,
    registers: &mut RegisterList,
) -> Result<(), AllocError>
    requires { IsHeld held.now.scratch held.now.parameters.now held.now.registers.now held.now.taken }
    ensures { OnOk result (AreChosen held.now.scratch held.now.parameters.now held.now.registers.now (member above)
        (row_in (λ leaf. leaf) row.now) registers.old registers.new) }
{
    match row {
        RowTree::Step { item, next } => match item.dest() {
            Some(_) => {
                let register = choose(held, above, next);
                registers.push(register)?;
                define(held, above.with(register), next, registers)
            }
            None => define(held, above, next, registers),
        },
        RowTree::Test { yes, no, .. } => {
            define(held, above, yes, registers)?;
            define(held, above, no, registers)
        }
        RowTree::Leaf { .. } => Ok(()),
    }
}

/// The register of a name that is defined above `rest`: the least that no parameter and no name
/// above has, or, where all are taken, that no parameter that is used below and no name above has.
fn choose(held: &Held, above: RegisterSet, rest: &RowTree<AutomatonLeaf>) -> u32
    requires { IsHeld held.now.scratch held.now.parameters.now held.now.registers.now held.now.taken }
    ensures chosen { IsChosen held.now.scratch
        (λ other. is_in other held.now.registers.now || member above other)
        (λ other. used_holds (row_uses (row_in (λ leaf. leaf) rest.now)) held.now.parameters.now held.now.registers.now other || member above other)
        result }
    ensures most { result ≤ held.now.scratch }
{
    let register = held.taken.union(above).least_absent(held.scratch);
    if register < u32::from(held.scratch) {
        return register;
    }
    used_below(held.parameters, held.registers, rest)
        .union(above)
        .least_absent(held.scratch)
}

/// The registers of the parameters that are used below a definition.
fn used_below(parameters: &[u32], held: &[u32], rest: &RowTree<AutomatonLeaf>) -> RegisterSet
    requires few { length parameters.now ≤ most_scratch }
    requires as_many { length held.now ≡ length parameters.now }
    requires most { AreMost most_scratch held.now }
    ensures { (other : ℕ) → member result other ≡ used_holds (row_uses (row_in (λ leaf. leaf) rest.now)) parameters.now held.now other }
{
    let used = used_in(parameters, rest);
    let mut set = RegisterSet::empty();
    for at in 0..parameters.len() {
        if used.contains(at as u32) {
            set = set.with(held[at]);
        }
    }
    set
}
