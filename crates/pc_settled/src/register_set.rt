//! Sets of registers.
ghost use Rattle.std.specs.Prelude.{◌≡◌, ◌<◌, ℕ, false, true, not, ◌&&◌, ◌||◌, nat_eq};
ghost use Rattle.std.specs.List.{list_any};
ghost use Rattle.pc_word.specs.Items.{operands_of, reads_name};
ghost use Rattle.pc_settled.specs.models.Sets.{member, no_register};

use pc_word::{Item, Operand, Operands};

/// A set of the at most 256 registers of a code: one bit a register. Greater numbers are in no set.
#[derive(Clone, Copy, Debug, PartialEq, Eq)]
pub struct RegisterSet {
    low: u128,
    high: u128,
}

impl RegisterSet {
    /// The set of no register.
    pub fn none() -> RegisterSet
        ensures is { result ≡ no_register }
        ensures empty { (x : ℕ) → member result x ≡ false }
    {
        RegisterSet { low: 0, high: 0 }
    }

    /// Whether a register is in the set.
    pub fn contains(self, register: u32) -> bool
        ensures exact { register < 256 → result ≡ member self register }
        ensures within { result ≡ true → register < 256 }
    {
        if register < 128 {
            return (self.low >> register) & 1 == 1;
        }
        if register < 256 {
            return (self.high >> (register - 128)) & 1 == 1;
        }
        false
    }

    /// The registers of both sets.
    pub fn with_all(self, other: RegisterSet) -> RegisterSet
        ensures { (x : ℕ) → member result x ≡ (member self x || member other x) }
    {
        RegisterSet {
            low: self.low | other.low,
            high: self.high | other.high,
        }
    }

    /// The set with a register in it.
    pub fn with(self, register: u32) -> RegisterSet
        ensures { (x : ℕ) → x < 256 → member result x ≡ (nat_eq register x || member self x) }
    {
        if register < 128 {
            return RegisterSet {
                low: self.low | (1 << register),
                high: self.high,
            };
        }
        if register < 256 {
            return RegisterSet {
                low: self.low,
                high: self.high | (1 << (register - 128)),
            };
        }
        self
    }

    /// The set without a register.
    pub fn without(self, register: u32) -> RegisterSet
        ensures { (x : ℕ) → x < 256 → member result x ≡ (not (nat_eq register x) && member self x) }
    {
        if register < 128 {
            return RegisterSet {
                low: self.low & !(1 << register),
                high: self.high,
            };
        }
        if register < 256 {
            return RegisterSet {
                low: self.low,
                high: self.high & !(1 << (register - 128)),
            };
        }
        self
    }

    /// The set with the register that an operand reads in it.
    pub fn with_operand(self, operand: Operand) -> RegisterSet
        ensures { (x : ℕ) → x < 256 → member result x ≡ (reads_name operand x || member self x) }
    {
        match operand {
            Operand::Name(register) => self.with(register),
            Operand::Lit(_) => self,
        }
    }

    /// The set with the registers that an item reads in it.
    pub fn with_item(self, item: Item) -> RegisterSet
        ensures { (x : ℕ) → x < 256 → member result x ≡ (list_any (λ operand. reads_name operand x) (operands_of item) || member self x) }
    {
        match item.operands() {
            Operands::None => self,
            Operands::One(one) => self.with_operand(one),
            Operands::Two(one, other) => self.with_operand(other).with_operand(one),
        }
    }

    /// The registers of a set that are not in another.
    pub fn without_all(self, other: RegisterSet) -> RegisterSet {
        RegisterSet {
            low: self.low & !other.low,
            high: self.high & !other.high,
        }
    }

    /// The least register of the set.
    pub fn least(self) -> Option<u32> {
        if self.low != 0 {
            return Some(self.low.trailing_zeros());
        }
        if self.high != 0 {
            return Some(self.high.trailing_zeros().wrapping_add(128));
        }
        None
    }

    /// How many registers of the set are less than one.
    pub fn rank(self, register: u32) -> u32 {
        let below = RegisterSet::below(register);
        let low = (self.low & below.low).count_ones();
        let high = (self.high & below.high).count_ones();
        low.wrapping_add(high)
    }

    /// How many registers the set has.
    pub fn count(self) -> u32 {
        self.low.count_ones().wrapping_add(self.high.count_ones())
    }

    /// The set of all registers that are less than one.
    fn below(register: u32) -> RegisterSet {
        if register < 128 {
            RegisterSet {
                low: (1 << register) - 1,
                high: 0,
            }
        } else if register < 256 {
            RegisterSet {
                low: u128::MAX,
                high: (1 << (register - 128)) - 1,
            }
        } else {
            RegisterSet {
                low: u128::MAX,
                high: u128::MAX,
            }
        }
    }

    /// The least of so many registers that is not in the set.
    pub fn least_other(self, registers: u16) -> Option<u8> {
        let others = RegisterSet {
            low: !self.low,
            high: !self.high,
        };
        let register = others.least()?;
        if register < registers as u32 {
            return u8::try_from(register).ok();
        }
        None
    }
}
