//! Sets of registers, or of places of parameters.
ghost use Rattle.std.specs.Prelude.{◌≡◌, ◌<◌, ◌≤◌, ◌^◌, ◌+◌, ℕ, false, ◌||◌, nat_eq};
ghost use Rattle.pc_machine.specs.Registers.{few_registers, most_registers};
ghost use Rattle.std.specs.Int.RustNames.{count_ones};
ghost use Rattle.pc_assign.specs.models.Choosing.{member, IsLeastAbsent};

use pc_machine::{FEW_REGISTERS, MOST_REGISTERS};

/// The register that no name has where there are few registers, so that copies may go through it. As
/// many registers stand below it, which is how many names may be live together.
pub(crate) const FEW_SCRATCH: u8 = (FEW_REGISTERS - 1) as u8;

/// The same where there are the most.
pub(crate) const MOST_SCRATCH: u8 = (MOST_REGISTERS - 1) as u8;

/// The number of the few registers.
const FEW: u32 = FEW_REGISTERS as u32;

/// A set of registers, or of places of as many parameters: one bit each, those of the few registers
/// apart from the others.
#[derive(Clone, Copy)]
pub(crate) struct RegisterSet {
    low: u128,
    high: u128,
}

impl RegisterSet {
    /// The set of no register.
    #[tactic(auto, using(crate::proofs::Sets::none_in_empty))]
    pub(crate) fn empty() -> RegisterSet
        ensures { (register : ℕ) → member result register ≡ false }
    {
        RegisterSet { low: 0, high: 0 }
    }

    /// Whether a register is in the set.
    pub(crate) fn contains(self, register: u32) -> bool
        requires { register < most_registers }
        ensures { result ≡ member self register }
    {
        if register < FEW {
            (self.low >> register) & 1 == 1
        } else {
            (self.high >> (register - FEW)) & 1 == 1
        }
    }

    /// The set with a register in it.
    pub(crate) fn with(self, register: u32) -> RegisterSet
        requires { register < most_registers }
        ensures { (other : ℕ) → member result other ≡ (nat_eq other register || member self other) }
    {
        if register < FEW {
            RegisterSet {
                low: self.low | (1 << register),
                high: self.high,
            }
        } else {
            RegisterSet {
                low: self.low,
                high: self.high | (1 << (register - FEW)),
            }
        }
    }

    /// The registers of both sets.
    pub(crate) fn union(self, other: RegisterSet) -> RegisterSet
        ensures { (register : ℕ) → member result register ≡ (member self register || member other register) }
    {
        RegisterSet {
            low: self.low | other.low,
            high: self.high | other.high,
        }
    }

    /// How many there are.
    pub(crate) fn count(self) -> u32
        ensures count { result ≡ count_ones self.low + count_ones self.high }
        ensures most { result ≤ most_registers }
        ensures fits { self.low < 2 ^ 128 }
    {
        self.low.count_ones() + self.high.count_ones()
    }

    /// The least register that is not in the set, or scratch if all below that are.
    pub(crate) fn least_absent(self, scratch: u8) -> u32
        ensures { IsLeastAbsent scratch (member self) result }
    {
        let low = self.low.trailing_ones();
        if low < FEW {
            return low.min(u32::from(scratch));
        }
        (FEW + self.high.trailing_ones()).min(u32::from(scratch))
    }
}
