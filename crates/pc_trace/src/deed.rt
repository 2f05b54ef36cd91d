//! What an item of a row does.
ghost use Rattle.std.specs.Prelude.{◌≡◌, length, Some};
ghost use Rattle.pc_machine.specs.Registers.{most_registers};
ghost use Rattle.pc_machine.specs.WellFormed.{IsItem};
ghost use Rattle.pc_vm.specs.Standing.{here_of};
ghost use Rattle.pc_trace.specs.Deeds.{deed_of};
ghost use Rattle.pc_trace.specs.TraceText.{deed_words};

use pc_vm::Machine;
use pc_word::Item;
use std::fmt;

/// What an item did.
#[derive(Clone, Copy, Debug, PartialEq, Eq)]
pub enum Deed {
    /// It gave a register a word.
    Wrote { register: u32, word: i32 },
    /// It took a word of the input and gave it to a register.
    Took { register: u32, word: i32 },
    /// It gave an element of an array a word.
    Stored { array: u8, index: i32, word: i32 },
    /// It printed a word.
    Printed { word: i32 },
}

/// What an item does if the next cycle does it.
pub(crate) fn deed_of(machine: &Machine, item: &Item) -> Deed
    requires { IsItem most_registers (length machine.now.code.arrays) item.now }
    ensures { result ≡ deed_of machine.now.code.arrays (here_of machine.now).state item.now }
{
    let word = machine.value(item);
    match item {
        Item::Bin { dest, .. }
        | Item::Copy { dest, .. }
        | Item::Load { dest, .. }
        | Item::More { dest } => Deed::Wrote {
            register: *dest,
            word,
        },
        Item::Read { dest } => Deed::Took {
            register: *dest,
            word,
        },
        Item::Store { array, index, .. } => Deed::Stored {
            array: *array,
            index: machine.operand(index),
            word,
        },
        Item::Print { .. } => Deed::Printed { word },
    }
}

impl fmt::Display for Deed {
    ghost output = { λ deed. Some (deed_words deed) };

    fn fmt<W: fmt::Write>(&self, f: &mut fmt::Formatter<W>) -> fmt::Result {
        match self {
            Deed::Wrote { register, word } => write!(f, "r{register} = {word}"),
            Deed::Took { register, word } => write!(f, "read r{register} = {word}"),
            Deed::Stored { array, index, word } => write!(f, "a{array}[{index}] = {word}"),
            Deed::Printed { word } => write!(f, "print {word}"),
        }
    }
}
