//! Moves that follow one another: each reads what the next one writes.
ghost use Rattle.std.specs.Prelude.{◌≡◌, ◌<◌, ◌+◌, length, IfOk, OnOk};
ghost use Rattle.pc_machine.specs.Registers.{most_registers};
ghost use Rattle.pc_copies.specs.models.Following.{AreSources, sources_left, Followed};

use crate::moves::{CopyRow, Move};
use pc_word::{Operand, Seq};
use std::alloc::{AllocError, Global};

/// The move of a register, the one of the register that it reads, and so on, as long as there is one.
/// They are taken out of the sources.
pub(crate) fn follow(
    alloc: Global,
    sources: &mut [Option<Operand>],
    first: u32,
) -> Result<CopyRow, AllocError>
    requires table { AreSources sources.old }
    requires first { first < most_registers }
    ensures table { OnOk result (AreSources sources.new) }
    ensures counted { IfOk result (λ path. sources_left sources.new + length path ≡ sources_left sources.old) }
    ensures followed { IfOk result (λ path. Followed sources.old sources.new first path) }
{
    let mut path = Seq::new(alloc);
    let mut at = first;
    while let Some(from) = sources[at as usize] {
        sources[at as usize] = None;
        path.push(Move { dest: at, from })?;
        match from {
            Operand::Name(register) => at = register,
            Operand::Lit(_) => return Ok(path),
        }
    }
    Ok(path)
}
