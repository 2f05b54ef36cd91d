//! Registers of the parameters of a state.
ghost use Rattle.std.specs.Prelude.{◌≡◌, ◌<◌, ◌≤◌, ℕ, length, slice_get, Some, IfOk};
ghost use Rattle.pc_window.specs.Rebasing.{is_in};
ghost use Rattle.pc_assign.specs.Pressure.{most_scratch};
ghost use Rattle.pc_assign.specs.Assigned.{passed_at};
ghost use Rattle.pc_assign.specs.models.Choosing.{member, AreMost, PassedMost, IsParameterTaken, AreParameters};

use crate::assigned::RegisterList;
use crate::register_set::RegisterSet;
use std::alloc::{AllocError, Global};

/// The registers of the parameters of another state than the first, in their order.
pub(crate) fn parameter_registers(
    alloc: Global,
    scratch: u8,
    parameters: &[u32],
    passed: &[Option<u32>],
) -> Result<RegisterList, AllocError>
    requires { PassedMost scratch passed.now }
    ensures count { IfOk result (λ held. length held ≡ length parameters.now) }
    ensures most { IfOk result (AreMost scratch) }
    ensures chosen { IfOk result (AreParameters scratch passed.now) }
{
    let mut held = RegisterList::with_capacity(alloc, parameters.len())?;
    let mut taken = RegisterSet::empty();
    for at in 0..parameters.len() {
        let register = parameter_register(scratch, taken, passed_at(passed, at));
        held.push(register)?;
        taken = taken.with(register);
    }
    Ok(held)
}

/// The register that is passed at a place, if one is.
fn passed_at(passed: &[Option<u32>], at: usize) -> Option<u32>
    ensures { result ≡ passed_at (slice_get passed.now at) }
{
    match passed.get(at) {
        Some(register) => *register,
        None => None,
    }
}

/// What a parameter is passed, if that is not taken, and else the least register that is not.
fn parameter_register(scratch: u8, taken: RegisterSet, passed: Option<u32>) -> u32
    requires { (register : ℕ) → passed ≡ Some register → register ≤ scratch }
    ensures chosen { IsParameterTaken scratch (member taken) passed result }
    ensures most { result ≤ scratch }
{
    match passed {
        Some(register) => {
            if taken.contains(register) {
                return taken.least_absent(scratch);
            }
            register
        }
        None => taken.least_absent(scratch),
    }
}

/// The set of some registers.
pub(crate) fn set_of(registers: &[u32]) -> RegisterSet
    requires { AreMost most_scratch registers.now }
    ensures { (register : ℕ) → member result register ≡ is_in register registers.now }
{
    let mut set = RegisterSet::empty();
    for at in 0..registers.len() {
        set = set.with(registers[at]);
    }
    set
}
