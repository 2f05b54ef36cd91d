//! Which registers have the values of registers of the code before when a row begins.
ghost use Rattle.std.specs.Prelude.{◌≡◌, ◌<◌, ◌↔◌, ℕ, Some, true};
ghost use Rattle.pc_word.specs.declared.item.Item.TheVariants as Item;
ghost use Rattle.pc_word.specs.declared.item.OpCode as op;
ghost use Rattle.pc_word.specs.declared.item.Operand as operand;
ghost use Rattle.pc_renaming.specs.Witness.{home_of, no_home, with_home};
ghost use Rattle.pc_renaming.specs.models.Tables.{homes_in};
ghost use Rattle.pc_renaming.specs.ItemRenames.{OperandRenames, ItemRenames};

use crate::witness::Holding;
use pc_machine::MOST_REGISTERS;
use pc_word::{Item, Operand};

/// For each register of the code before, the register that has its value, if one is told.
#[derive(Clone, Copy, Debug)]
pub(crate) struct Homes {
    table: [Option<u8>; MOST_REGISTERS],
}

impl Homes {
    /// Where no register has a value.
    fn none() -> Homes
        ensures { homes_in result ≡ no_home }
    {
        Homes {
            table: [None; MOST_REGISTERS],
        }
    }

    /// One more register whose value is told to be in another one.
    fn tell(&mut self, holding: Holding)
        ensures { homes_in self.new ≡ with_home holding.register holding.place (homes_in self.old) }
    {
        self.table[holding.register as usize] = Some(holding.place);
    }

    /// As told; of what is told of one register the last counts.
    pub(crate) fn of(held: &[Holding]) -> Homes
        ensures { homes_in result ≡ home_of held.now }
    {
        let mut homes = Homes::none();
        for holding in held {
            homes.tell(*holding);
        }
        homes
    }

    /// The register that has the value of a register of the code before.
    pub(crate) fn place(&self, register: u32) -> Option<u8>
        ensures { result ≡ homes_in self.now register }
    {
        self.table.get(register as usize).copied().unwrap_or(None)
    }

    /// Whether an operand reads the same as one of the code before, of so many registers.
    #[tactic(auto, using(crate::proofs::Checked::operand_laws))]
    pub(crate) fn renames_operand(&self, registers: u16, old: Operand, new: Operand) -> bool
        ensures { (result ≡ true) ↔ OperandRenames registers (homes_in self.now) old new }
    {
        match old {
            Operand::Name(register) => match new {
                Operand::Name(place) => self.is_there(registers, register, place),
                Operand::Lit(_) => false,
            },
            Operand::Lit(value) => match new {
                Operand::Name(_) => false,
                Operand::Lit(other) => value == other,
            },
        }
    }

    /// Whether a register has the value of a register of the code before.
    pub(crate) fn is_at(&self, register: u32, place: u32) -> bool
        ensures { (result ≡ true) ↔ (homes_in self.now register ≡ Some place) }
    {
        match self.place(register) {
            Some(home) => home as u32 == place,
            None => false,
        }
    }

    /// Whether a register, which is below this number, has the value of a register of the code before.
    fn is_there(&self, registers: u16, register: u32, place: u32) -> bool
        ensures { (result ≡ true) ↔ ((homes_in self.now register ≡ Some place) × (place < registers)) }
    {
        if registers as u32 <= place {
            return false;
        }
        self.is_at(register, place)
    }

    /// Whether a register has the value of some register of the code before.
    #[tactic(auto, using(crate::proofs::Wanting::home_laws))]
    pub(crate) fn has(&self, place: u32) -> bool
        ensures { (result ≡ true) ↔ ((register : ℕ) × (homes_in self.now register ≡ Some place)) }
    {
        for register in 0..MOST_REGISTERS as u32 {
            if self.is_at(register, place) {
                return true;
            }
        }
        false
    }

    /// Whether an item does the same as a binary one of the code before, whatever it writes.
    #[tactic(auto, using(crate::proofs::Checked::item_laws))]
    fn renames_bin(&self, registers: u16, old: Item, new: Item) -> bool
        ensures does { result ≡ true → ItemRenames registers (homes_in self.now) old new }
        ensures exact { (op : op.OpCode) (dest : ℕ) (left right : operand.Operand) → old ≡ Item.Bin op dest left right → ItemRenames registers (homes_in self.now) old new → result ≡ true }
    {
        match old {
            Item::Bin {
                op,
                left,
                right,
                ..
            } => match new {
                Item::Bin {
                    op: other,
                    left: one,
                    right: another,
                    ..
                } => {
                    op == other
                        && self.renames_operand(registers, left, one)
                        && self.renames_operand(registers, right, another)
                }
                _ => false,
            },
            _ => false,
        }
    }

    /// Whether an item does the same as a store of the code before.
    #[tactic(auto, using(crate::proofs::Checked::item_laws))]
    fn renames_store(&self, registers: u16, old: Item, new: Item) -> bool
        ensures does { result ≡ true → ItemRenames registers (homes_in self.now) old new }
        ensures exact { (array : ℕ) (index value : operand.Operand) → old ≡ Item.Store array index value → ItemRenames registers (homes_in self.now) old new → result ≡ true }
    {
        match old {
            Item::Store {
                array,
                index,
                value,
            } => match new {
                Item::Store {
                    array: other,
                    index: one,
                    value: another,
                } => {
                    array == other
                        && self.renames_operand(registers, index, one)
                        && self.renames_operand(registers, value, another)
                }
                _ => false,
            },
            _ => false,
        }
    }

    /// Whether an item does the same as one of the code before, whatever it writes.
    #[tactic(auto, using(crate::proofs::Checked::item_laws))]
    pub(crate) fn renames_item(&self, registers: u16, old: Item, new: Item) -> bool
        ensures { (result ≡ true) ↔ ItemRenames registers (homes_in self.now) old new }
    {
        match old {
            Item::Bin { .. } => self.renames_bin(registers, old, new),
            Item::Store { .. } => self.renames_store(registers, old, new),
            Item::Copy { from, .. } => match new {
                Item::Copy { from: one, .. } => self.renames_operand(registers, from, one),
                _ => false,
            },
            Item::Load { array, index, .. } => match new {
                Item::Load {
                    array: other,
                    index: one,
                    ..
                } => array == other && self.renames_operand(registers, index, one),
                _ => false,
            },
            Item::Print { value } => match new {
                Item::Print { value: one } => self.renames_operand(registers, value, one),
                _ => false,
            },
            Item::Read { .. } => matches!(new, Item::Read { .. }),
            Item::More { .. } => matches!(new, Item::More { .. }),
        }
    }
}
