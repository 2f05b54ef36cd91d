//! The forms of a region's code.
use pc_assign::Assigned;
use pc_automaton::Automaton;

/// The form of a region's code.
#[derive(Drop)]
pub enum RegionForm {
    /// A row for each item and test, with variable v in register v.
    Plain,
    /// A row for each state of an automaton, with these registers for its names: the form of a region that
    /// is pipelined, and of one that is packed.
    ByAutomaton {
        automaton: Automaton,
        registers: Assigned,
    },
}
