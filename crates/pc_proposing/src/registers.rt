//! Sets of registers.
use pc_word::{Item, Operand, Operands};

/// A set of registers below 256.
#[derive(Clone, Copy)]
pub(crate) struct RegisterSet {
    words: [u64; 4],
}

impl RegisterSet {
    /// No register.
    pub(crate) fn none() -> RegisterSet {
        RegisterSet { words: [0; 4] }
    }

    /// Whether a register is in the set.
    pub(crate) fn has(&self, register: u32) -> bool {
        match self.words.get((register / 64) as usize) {
            None => false,
            Some(word) => (*word >> (register % 64)) & 1 == 1,
        }
    }

    /// The set with one more register.
    pub(crate) fn add(&mut self, register: u32) {
        if let Some(word) = self.words.get_mut((register / 64) as usize) {
            *word = *word | (1u64 << (register % 64));
        }
    }

    /// The set with the registers of another.
    pub(crate) fn join(&mut self, other: &RegisterSet) {
        for at in 0..4 {
            self.words[at] = self.words[at] | other.words[at];
        }
    }

    /// The set without the registers of another.
    pub(crate) fn remove(&mut self, other: &RegisterSet) {
        for at in 0..4 {
            self.words[at] = self.words[at] & !other.words[at];
        }
    }

    /// The set without a register.
    pub(crate) fn drop_one(&mut self, register: u32) {
        if let Some(word) = self.words.get_mut((register / 64) as usize) {
            *word = *word & !(1u64 << (register % 64));
        }
    }

    /// Whether it has a register of another.
    pub(crate) fn meets(&self, other: &RegisterSet) -> bool {
        for at in 0..4 {
            if self.words[at] & other.words[at] != 0 {
                return true;
            }
        }
        false
    }

    /// Whether it has as many and the same registers.
    pub(crate) fn is_same(&self, other: &RegisterSet) -> bool {
        for at in 0..4 {
            if self.words[at] != other.words[at] {
                return false;
            }
        }
        true
    }

    /// Adds what an operand reads.
    pub(crate) fn add_read(&mut self, operand: Operand) {
        if let Operand::Name(register) = operand {
            self.add(register);
        }
    }

    /// Adds what an item reads.
    pub(crate) fn add_reads(&mut self, item: Item) {
        match item.operands() {
            Operands::None => {}
            Operands::One(one) => self.add_read(one),
            Operands::Two(one, other) => {
                self.add_read(one);
                self.add_read(other);
            }
        }
    }
}
