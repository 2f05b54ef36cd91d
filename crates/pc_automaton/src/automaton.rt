//! Automata: states with parameters and a row each.
ghost use Rattle.std.specs.Prelude.{◌≡◌, ◌<◌, ◌^◌, length, Some, slice_get, MatchResult};
ghost use Rattle.pc_automaton.specs.Automaton.{IsAutomaton, states_in};

use crate::checking::are_states;
use crate::{OperandList, StateList};
use pc_table::VarList;
use pc_window::HomeList;
use pc_word::{RowTree, TrapKind};
use std::marker::Model;

/// Where a row of an automaton leads.
#[derive(Debug, Drop)]
pub enum AutomatonLeaf {
    /// A state, by its number, with an argument for each of its parameters.
    To { state: u32, arguments: OperandList },
    /// A region, where variables have these values.
    Out { region: u32, homes: HomeList },
    /// The end of the program.
    Stop,
    /// A trap, with its line in the source.
    Trap { kind: TrapKind, line: u32 },
}

/// A state: the names that it is passed values for, and its row.
#[derive(Debug, Drop)]
pub struct AutomatonState {
    pub parameters: VarList,
    pub row: RowTree<AutomatonLeaf>,
}

/// States that lead to one another. The first is where the automaton begins.
///
/// It keeps `IsAutomaton`: there is a state; each leaf leads to a state that is there, with as many
/// arguments as this has parameters; items and tests read parameters alone, and leaves what is
/// known at them; and in each state each name stands once, as a parameter or where it is written.
#[derive(Debug, Drop)]
pub struct Automaton {
    states: StateList,
}

impl Model for Automaton {
    ghost use Rattle.std.specs.Prelude.{List};
    ghost use Rattle.std.specs.Coded.{codes};
    ghost use Rattle.pc_automaton.specs.contracts.automaton.AutomatonState as stored_state;
    ghost use Rattle.pc_automaton.specs.declared.automaton.AutomatonState.{AutomatonState};
    ghost use Rattle.pc_automaton.specs.Automaton.{IsAutomaton, states_in};

    ghost Value = { List AutomatonState };

    ghost coded = { Prim.hlevel (codes, stored_state.the_row.coded) };

    ghost view = { λ it. it.states };

    ghost invariant = { λ it. IsAutomaton (states_in it.states) };
}

impl Automaton {
    /// The automaton of these states. They are handed back where they are none, where a leaf leads
    /// to a state that is not there or passes another number of arguments, or where a name is not
    /// known where it is read or stands twice in a state. It takes no memory.
    pub fn new(states: StateList) -> Result<Automaton, StateList>
        ensures { MatchResult result (λ automaton. (automaton ≡ states) × IsAutomaton (states_in states)) (λ back. (back ≡ states) × (IsAutomaton (states_in states) → ⊥)) }
    {
        if !are_states(states.as_slice()) {
            return Err(states);
        }
        Ok(Automaton { states })
    }

    /// The number of states. It also tells what every automaton keeps.
    pub fn count(&self) -> u32
        requires { length self.now < 2 ^ 32 }
        ensures number { result ≡ length self.now }
        ensures kept { IsAutomaton (states_in self.now) }
    {
        self.states.len() as u32
    }

    /// The state where the automaton begins.
    pub fn first(&self) -> &AutomatonState
        ensures { slice_get self.now 0 ≡ Some result.now }
    {
        &self.states.as_slice()[0]
    }

    /// A state by its number.
    pub fn state(&self, number: u32) -> &AutomatonState
        requires { number < length self.now }
        ensures { slice_get self.now number ≡ Some result.now }
    {
        &self.states.as_slice()[number as usize]
    }
}
