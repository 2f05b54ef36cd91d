//! Moves that are done at once, as rows of copies.
ghost use Rattle.std.specs.Prelude.{◌≡◌, ◌<◌, ◌≤◌, [], None, length, replicate, IfOk, OnOk};
ghost use Rattle.std.specs.List.{AllByRecursion};
ghost use Rattle.pc_machine.specs.Registers.{most_registers};
ghost use Rattle.pc_copies.specs.Moves.{AreMoves, nontrivial_moves, is_name, IsArranged};
ghost use Rattle.pc_copies.specs.models.Packing.{WritesOnce};
ghost use Rattle.pc_copies.specs.models.Arranging.{IsInside, AreApart, IsTable, IsPacked, if_any};

use crate::error::CopyError;
use crate::follow::follow;
use crate::moves::{CopyRow, CopyRows, Move};
use crate::packing::Packing;
use crate::place::place;
use pc_machine::MOST_REGISTERS;
use pc_word::{Operand, Seq};
use std::alloc::{AllocError, Global};

/// Rows of at most `ops` copies that do moves at once when they run one after the other; moves to
/// themselves are dropped.
///
/// `scratch` is a register that no move names. A cycle of moves goes whole into one row where that has
/// room for it, and else takes one copy more, through scratch (no clause says that a cycle is broken
/// only there, but where one row has room for all moves). Rows are filled from the last one on; a
/// register is written once no move that is left reads it, as where parallel copies are done one after
/// the other when code leaves SSA form (Boissinot and others 2009).
///
/// `Memory` is the only error.
#[tactic(auto, using(crate::proofs::Arranged::arranged_laws))]
pub fn arrange(alloc: Global, moves: &[Move], ops: u8, scratch: u8) -> Result<CopyRows, CopyError>
    requires moves { AreMoves scratch moves.now }
    requires ops { 1 ≤ ops }
    ensures { IfOk result (λ rows. IsArranged moves.now ops scratch rows) }
{
    let kept = kept(alloc, moves)?;
    let ops = usize::from(ops);
    if kept.len() <= ops {
        return Ok(one_row(alloc, kept)?);
    }
    let packing = pack(alloc, kept.as_slice(), ops, u32::from(scratch))?;
    Ok(packing.in_order()?)
}

/// The moves that are not to themselves.
fn kept(alloc: Global, moves: &[Move]) -> Result<CopyRow, AllocError>
    ensures { IfOk result (λ row. row ≡ nontrivial_moves moves.now) }
{
    let mut row = Seq::new(alloc);
    for at in 0..moves.len() {
        if !is_name(moves[at].from, moves[at].dest) {
            row.push(moves[at])?;
        }
    }
    Ok(row)
}

/// One row of these copies, or none if there is none.
fn one_row(alloc: Global, row: CopyRow) -> Result<CopyRows, AllocError>
    ensures { IfOk result (λ rows. rows ≡ if_any row) }
{
    let mut rows = Seq::new(alloc);
    if !row.is_empty() {
        rows.push(row)?;
    }
    Ok(rows)
}

/// Whether an operand is this register.
fn is_name(operand: Operand, register: u32) -> bool
    ensures { result ≡ is_name operand register }
{
    match operand {
        Operand::Name(name) => name == register,
        Operand::Lit(_) => false,
    }
}

/// Packs moves into rows.
fn pack(alloc: Global, moves: &[Move], ops: usize, scratch: u32) -> Result<Packing, AllocError>
    requires moves { AreApart scratch moves.now }
    requires ops { 0 < ops }
    ensures { IfOk result (λ packing. IsPacked ops scratch moves.now packing.rows packing.first) }
{
    let mut sources = [None; MOST_REGISTERS];
    fill(&mut sources, moves);
    let mut packing = Packing::new(alloc, ops, scratch);
    pack_all(alloc, moves, &mut sources, &mut packing)?;
    Ok(packing)
}

/// Puts moves into rows, each with those that follow it.
fn pack_all(
    alloc: Global,
    moves: &[Move],
    sources: &mut [Option<Operand>],
    packing: &mut Packing,
) -> Result<(), AllocError>
    requires moves { AreApart packing.old.scratch moves.now }
    requires table { IsTable moves.now sources.old }
    requires has_room { length packing.old.first < packing.old.ops }
    requires none { (packing.old.rows ≡ []) × (packing.old.first ≡ []) }
    ensures { OnOk result (IsPacked packing.old.ops packing.old.scratch moves.now packing.new.rows packing.new.first) }
{
    for at in 0..moves.len() {
        let path = follow(alloc, sources, moves[at].dest)?;
        place(packing, path.as_slice())?;
    }
    Ok(())
}

/// Puts the source of each move into a table that has none.
fn fill(table: &mut [Option<Operand>], moves: &[Move])
    requires table { table.old ≡ replicate most_registers None }
    requires moves { AllByRecursion IsInside moves.now }
    requires once { WritesOnce moves.now }
    ensures { IsTable moves.now table.new }
{
    let mut at = moves.len();
    while at > 0 {
        at -= 1;
        table[moves[at].dest as usize] = Some(moves[at].from);
    }
}
