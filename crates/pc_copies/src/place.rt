//! Moves that follow one another are put into rows.
ghost use Rattle.std.specs.Prelude.{◌≡◌, ◌<◌, None, length, OnOk, MatchOption};
ghost use Rattle.std.specs.List.{AllByRecursion};
ghost use Rattle.pc_copies.specs.models.Counting.{copies_with, Path_counts};
ghost use Rattle.pc_copies.specs.models.Packing.{Avoids, AddsRing};
ghost use Rattle.pc_copies.specs.models.Placing.{IsWay, IsAt, EndsElsewhere, EndsAt};
ghost use Rattle.pc_copies.specs.models.Sources.{source_in};

use crate::moves::Move;
use crate::packing::Packing;
use pc_word::Operand;
use std::alloc::AllocError;

/// Puts moves that follow one another into rows: the cycle that they end in, if they do, and before it
/// the moves that lead there, the last one first.
pub(crate) fn place(packing: &mut Packing, path: &[Move]) -> Result<(), AllocError>
    requires has_room { length packing.old.first < packing.old.ops }
    requires way { IsWay path.now }
    requires avoids { AllByRecursion (Avoids packing.old.scratch) path.now }
    ensures ops { packing.new.ops ≡ packing.old.ops }
    ensures scratch { packing.new.scratch ≡ packing.old.scratch }
    ensures has_room { OnOk result (length packing.new.first < packing.new.ops) }
    ensures counted { OnOk result (Path_counts path.now (copies_with packing.old.rows packing.old.first) (copies_with packing.new.rows packing.new.first)) }
    ensures adds { OnOk result (AddsRing packing.old.ops packing.old.scratch (source_in path.now) packing.old.rows packing.old.first packing.new.rows packing.new.first) }
{
    match ring_start(path) {
        Some(start) => {
            packing.put_ring(&path[start..])?;
            packing.unwind(&path[..start])?;
        }
        None => packing.unwind(path)?,
    }
    Ok(())
}

/// The place of the move whose register the last move reads, where there is one.
fn ring_start(path: &[Move]) -> Option<usize>
    ensures { MatchOption result (EndsElsewhere path.now) (λ at. EndsAt path.now at) }
{
    if path.is_empty() {
        return None;
    }
    match path[path.len() - 1].from {
        Operand::Name(register) => position(path, register),
        Operand::Lit(_) => None,
    }
}

/// The place of the move to a register, where there is one.
fn position(path: &[Move], register: u32) -> Option<usize>
    ensures { MatchOption result (source_in path.now register ≡ None) (λ at. IsAt path.now register at) }
{
    for at in 0..path.len() {
        if path[at].dest == register {
            return Some(at);
        }
    }
    None
}
