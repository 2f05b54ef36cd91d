//! Automata: rows whose leaves lead from state to state, and how the front of a window is cut off
//! as such a row.
#![tactic(auto)]

mod automaton;
mod checking;
mod cutting;
mod left;

pub use automaton::{Automaton, AutomatonLeaf, AutomatonState};
pub use cutting::cut_front;
pub use left::Left;
use pc_word::{Operand, Seq};

/// Operands, in the order of the parameters that they are passed to.
pub type OperandList = Seq<Operand>;

/// States of an automaton, by number.
pub type StateList = Seq<AutomatonState>;
