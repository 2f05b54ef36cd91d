//! A cycle is run, and tells what it did.
ghost use Rattle.std.specs.Prelude.{◌≡◌, ◌++◌, false, length, map, IfOk, OnErr, OnOk};
ghost use Rattle.pc_machine.specs.MachineCode.{code_of, row_of};
ghost use Rattle.pc_machine.specs.MachineRun.{machine_step};
ghost use Rattle.pc_vm.specs.Standing.{here_of};
ghost use Rattle.pc_vm.specs.models.RowResult.{IsRunnable};
ghost use Rattle.pc_word.specs.Row.{path_of};
ghost use Rattle.pc_trace.specs.Deeds.{deed_of};
ghost use Rattle.pc_trace.specs.Trace.{Moves, cycle_at, cycle_of, done_by, sides_of};
ghost use Rattle.pc_trace.specs.models.Walked.{IsWalk};

use crate::deed::{Deed, deed_of};
use pc_machine::Tree;
use pc_vm::Machine;
use pc_word::{End, RowTree};
use std::alloc::{AllocError, Global};

/// What a cycle did.
#[derive(Debug, Drop)]
pub struct TracedCycle {
    /// The row in which it began.
    pub row: usize,
    /// For each test on its path, in order, whether the yes side was taken.
    pub sides: Vec<bool>,
    /// What the items on its path did, in order: nothing, where the machine faulted.
    pub deeds: Vec<Deed>,
    /// How the run ended, if the cycle was its last.
    pub end: Option<End>,
}

/// The path that the next cycle takes through its row, and what its items do if the machine does not fault.
#[derive(Drop)]
struct Walk {
    row: usize,
    sides: Vec<bool>,
    deeds: Vec<Deed>,
}

/// Runs a cycle, and tells what it did.
///
/// An error is want of memory, which comes before the cycle.
pub fn trace_cycle(alloc: Global, machine: &mut Machine) -> Result<TracedCycle, AllocError>
    requires { machine.old.over ≡ false }
    ensures cycle { IfOk result (λ cycle. cycle_of cycle ≡ cycle_at (code_of machine.old.code) (here_of machine.old)) }
    ensures step { IfOk result (λ cycle. Moves cycle.end machine.new (machine_step (code_of machine.old.code) (here_of machine.old))) }
    ensures untouched { OnErr result (machine.new ≡ machine.old) }
    ensures code { machine.new.code ≡ machine.old.code }
{
    let walk = follow(alloc, machine)?;
    let event = machine.cycle();
    Ok(finished(alloc, walk, event.end))
}

/// What a cycle did that took a path and came to this end, if to one.
fn finished(alloc: Global, walk: Walk, end: Option<End>) -> TracedCycle
    ensures { cycle_of result ≡ record { row = walk.row; sides = walk.sides.items; deeds = done_by end walk.deeds.items; end = end } }
{
    let Walk { row, sides, deeds } = walk;
    TracedCycle {
        row,
        sides,
        deeds: done_by(alloc, end, deeds),
        end,
    }
}

/// What was done of what a path's items do: nothing, where the machine faulted.
fn done_by(alloc: Global, end: Option<End>, deeds: Vec<Deed>) -> Vec<Deed>
    ensures { result.items ≡ done_by end deeds.items }
{
    match end {
        Some(End::Fault { .. }) => Vec::new(alloc),
        _ => deeds,
    }
}

/// Follows the path that the next cycle takes. Nothing is changed.
fn follow(alloc: Global, machine: &Machine) -> Result<Walk, AllocError>
    ensures { IfOk result (IsWalk (code_of machine.now.code) (here_of machine.now)) }
{
    let row = machine.exit().row;
    let tree = &machine.code().rows.as_slice()[row];
    let sides = sides_of(alloc, machine, tree)?;
    let deeds = deeds_of(alloc, machine, tree)?;
    Ok(Walk { row, sides, deeds })
}

/// The sides that the next cycle takes at the tests of a tree.
fn sides_of(alloc: Global, machine: &Machine, tree: &Tree) -> Result<Vec<bool>, AllocError>
    requires { IsRunnable (length machine.now.code.arrays) (row_of tree.now) }
    ensures { IfOk result (λ sides. sides.items ≡ sides_of (here_of machine.now).state.names (row_of tree.now)) }
{
    let mut sides = Vec::new(alloc);
    push_sides(machine, tree, &mut sides)?;
    Ok(sides)
}

/// What the items do that the next cycle does of a tree.
fn deeds_of(alloc: Global, machine: &Machine, tree: &Tree) -> Result<Vec<Deed>, AllocError>
    requires { IsRunnable (length machine.now.code.arrays) (row_of tree.now) }
    ensures { IfOk result (λ deeds. deeds.items
        ≡ map (deed_of machine.now.code.arrays (here_of machine.now).state) (path_of (here_of machine.now).state.names (row_of tree.now))) }
{
    let mut deeds = Vec::new(alloc);
    push_deeds(machine, tree, &mut deeds)?;
    Ok(deeds)
}

/// Appends the sides that the next cycle takes at the tests of a tree.
fn push_sides(machine: &Machine, tree: &Tree, sides: &mut Vec<bool>) -> Result<(), AllocError>
    requires { IsRunnable (length machine.now.code.arrays) (row_of tree.now) }
    ensures { OnOk result (sides.new.items ≡ sides.old.items ++ sides_of (here_of machine.now).state.names (row_of tree.now)) }
{
    match tree {
        RowTree::Step { next, .. } => push_sides(machine, next, sides),
        RowTree::Test { on, yes, no } => {
            if machine.operand(on) != 0 {
                sides.push(true)?;
                push_sides(machine, yes, sides)
            } else {
                sides.push(false)?;
                push_sides(machine, no, sides)
            }
        }
        RowTree::Leaf { .. } => Ok(()),
    }
}

/// Appends what the items do that the next cycle does of a tree.
fn push_deeds(machine: &Machine, tree: &Tree, deeds: &mut Vec<Deed>) -> Result<(), AllocError>
    requires { IsRunnable (length machine.now.code.arrays) (row_of tree.now) }
    ensures { OnOk result (deeds.new.items ≡ deeds.old.items
        ++ map (deed_of machine.now.code.arrays (here_of machine.now).state) (path_of (here_of machine.now).state.names (row_of tree.now))) }
{
    match tree {
        RowTree::Step { item, next } => {
            deeds.push(deed_of(machine, item))?;
            push_deeds(machine, next, deeds)
        }
        RowTree::Test { on, yes, no } => {
            if machine.operand(on) != 0 {
                push_deeds(machine, yes, deeds)
            } else {
                push_deeds(machine, no, deeds)
            }
        }
        RowTree::Leaf { .. } => Ok(()),
    }
}
