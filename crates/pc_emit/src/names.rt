//! Registers in place of names.
ghost use Rattle.std.specs.Prelude.{◌≡◌, length, IfOk};
ghost use Rattle.pc_emit.specs.Registers.{argument_moves, home_moves};
ghost use Rattle.pc_emit.specs.models.Output.{of_state};
ghost use Rattle.pc_word.specs.Naming.{map_name, map_names};

use pc_assign::Assigned;
use pc_copies::Move;
use pc_window::Home;
use pc_word::{Item, Operand};
use std::alloc::{AllocError, Global};

/// The registers of one state's names.
#[derive(Clone, Copy)]
pub(crate) struct StateNames<'a> {
    pub(crate) registers: &'a Assigned,
    pub(crate) state: u32,
}

impl StateNames<'_> {
    /// The register of a name, and 0 where it is no name of the state.
    pub(crate) fn register(&self, name: u32) -> u32
        ensures { result ≡ of_state self.now name }
    {
        match self.registers.register(self.state, name) {
            Some(register) => register,
            None => 0,
        }
    }

    /// An operand with a register in place of its name.
    pub(crate) fn operand(&self, operand: Operand) -> Operand
        ensures { result ≡ map_name (of_state self.now) operand }
    {
        match operand {
            Operand::Name(name) => Operand::Name(self.register(name)),
            Operand::Lit(value) => Operand::Lit(value),
        }
    }

    /// An item with registers in place of its names.
    pub(crate) fn item(&self, item: Item) -> Item
        ensures { result ≡ map_names (of_state self.now) item }
    {
        match item {
            Item::Bin {
                op,
                dest,
                left,
                right,
            } => Item::Bin {
                op,
                dest: self.register(dest),
                left: self.operand(left),
                right: self.operand(right),
            },
            Item::Copy { dest, from } => Item::Copy {
                dest: self.register(dest),
                from: self.operand(from),
            },
            Item::Load { dest, array, index } => Item::Load {
                dest: self.register(dest),
                array,
                index: self.operand(index),
            },
            Item::Store {
                array,
                index,
                value,
            } => Item::Store {
                array,
                index: self.operand(index),
                value: self.operand(value),
            },
            Item::Print { value } => Item::Print {
                value: self.operand(value),
            },
            Item::Read { dest } => Item::Read {
                dest: self.register(dest),
            },
            Item::More { dest } => Item::More {
                dest: self.register(dest),
            },
        }
    }
}

/// The moves that pass arguments to parameters of a state.
pub(crate) fn argument_moves(
    alloc: Global,
    from: &StateNames,
    to: &StateNames,
    parameters: &[u32],
    arguments: &[Operand],
) -> Result<Vec<Move>, AllocError>
    requires { length arguments.now ≡ length parameters.now }
    ensures { IfOk result (λ moves. moves.items ≡ argument_moves (of_state from.now) (of_state to.now) parameters.now arguments.now) }
{
    let mut moves = Vec::new(alloc);
    for at in 0..parameters.len() {
        let dest = to.register(parameters[at]);
        let from = from.operand(arguments[at]);
        moves.push(Move { dest, from })?;
    }
    Ok(moves)
}

/// The moves that bring variables into the registers of their numbers.
pub(crate) fn home_moves(
    alloc: Global,
    from: &StateNames,
    homes: &[Home],
) -> Result<Vec<Move>, AllocError>
    ensures { IfOk result (λ moves. moves.items ≡ home_moves (of_state from.now) homes.now) }
{
    let mut moves = Vec::new(alloc);
    for home in homes {
        let from = from.operand(home.value);
        moves.push(Move {
            dest: home.variable,
            from,
        })?;
    }
    Ok(moves)
}
