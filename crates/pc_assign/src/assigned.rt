//! Registers for the names of an automaton.
ghost use Rattle.std.specs.Prelude.{◌≡◌, ◌<◌, ◌^◌};
ghost use Rattle.pc_assign.specs.Assigned.{operand_register};
ghost use Rattle.pc_assign.specs.Stored.{registers_in, beside};

use indexmap::IndexSet;
use pc_short::ShortSeq;
use pc_word::{Operand, Seq};

/// Registers of names, in the names' order. A state of a usual loop has some twelve names.
pub(crate) type RegisterList = ShortSeq<u32, 16>;

/// The registers of a state's names: its names in order, with a register beside each.
#[derive(Drop)]
pub(crate) struct StateRegisters {
    pub(crate) names: IndexSet<u32>,
    pub(crate) registers: RegisterList,
}

/// The registers of an automaton's names, and the one that is left for moves.
#[derive(Drop)]
pub struct Assigned {
    pub(crate) states: Seq<StateRegisters>,
    pub(crate) scratch: u8,
}

impl Assigned {
    /// A name's register in a state, if it is a name of the state. It takes one look-up by hash.
    pub fn register(&self, state: u32, name: u32) -> Option<u32>
        ensures { result ≡ (registers_in self.now).of state name }
    {
        match self.states.get(state as usize) {
            Some(registers) => registers.register(name),
            None => None,
        }
    }

    /// The register that no name has, so that copies may go through it: the last one of a machine that
    /// has registers enough. All names' registers are below it. It takes no memory.
    pub fn scratch(&self) -> u8
        ensures { result ≡ (registers_in self.now).scratch }
    {
        self.scratch
    }
}

impl StateRegisters {
    /// A name's register, if it is a name of the state.
    #[tactic(auto, using(crate::proofs::Lookups::lookups))]
    pub(crate) fn register(&self, name: u32) -> Option<u32>
        ensures { result ≡ beside self.now.names.keys self.now.registers name }
    {
        match self.names.get_index_of(&name) {
            Some(at) => self.registers.get(at).copied(),
            None => None,
        }
    }

    /// The register of an operand, if it is a name of the state.
    pub(crate) fn register_of(&self, operand: Operand) -> Option<u32>
        ensures { result ≡ operand_register (beside self.now.names.keys self.now.registers) operand }
    {
        match operand {
            Operand::Name(name) => self.register(name),
            Operand::Lit(_) => None,
        }
    }
}
