//! The explanation of a loop.
ghost use Rattle.std.specs.Prelude.{◌≡◌, ◌<◌, length, Some, slice_get};
ghost use Rattle.pc_explain.specs.EachState.{explained_in, explained_states, naming_of};
ghost use Rattle.pc_explain.specs.Explained.{schedule_in, HasEach};
ghost use Rattle.pc_explain.specs.Legends.{legend_in};
ghost use Rattle.pc_explain.specs.Naming.{naming_in};

use crate::legend::Legend;
use crate::naming::StateNaming;
use pc_automaton::AutomatonState;
use pc_cycles::CycleList;
use pc_object::Note;
use pc_told::{Told, ToldRow};
use pc_variables::{Holding, VariableList};
use pc_waiting::Waiting;

/// An innermost loop, and what the compiler found for it.
#[derive(Debug, Drop)]
pub struct LoopExplanation {
    /// The region that is its header, and whose form is explained.
    pub region: u32,
    /// The form that its region got and what decided it, as the report tells it.
    pub note: Option<Note>,
    /// The schedule that the search found; none where the form is plain.
    pub schedule: Option<Schedule>,
}

/// The schedule of a loop, with all that is explained of it.
#[derive(Debug, Drop)]
pub struct Schedule {
    /// The states that the search found, where the items and tests of the row of each come from, and what waits there.
    pub told: Told,
    /// Which names of each state hold which scalars of the source.
    pub variables: VariableList,
    /// The cycles of states, with their bounds.
    pub cycles: CycleList,
}

/// A state of a schedule, with all that is explained of it.
#[derive(Clone, Copy)]
pub struct StateView<'a> {
    /// The parameters and the row.
    pub state: &'a AutomatonState,
    /// Where the items and tests of the row come from.
    pub told: &'a ToldRow,
    /// What waits, and why.
    pub waiting: &'a [Waiting],
    /// Which names hold which scalars of the source.
    pub holdings: &'a [Holding],
}

impl Schedule {
    /// The number of states.
    pub fn count(&self) -> u32
        requires { HasEach (schedule_in self.now) }
        ensures { result ≡ length (explained_states (schedule_in self.now)) }
    {
        self.told.automaton.count()
    }

    /// A state by its number.
    pub fn state(&self, number: u32) -> StateView<'_>
        requires each { HasEach (schedule_in self.now) }
        requires there { number < length (explained_states (schedule_in self.now)) }
        ensures { slice_get (explained_states (schedule_in self.now)) number ≡ Some (explained_in result) }
    {
        let at = number as usize;
        StateView {
            state: self.told.automaton.state(number),
            told: &self.told.rows.as_slice()[at],
            waiting: self.told.waiting.as_slice()[at].as_slice(),
            holdings: self.variables.as_slice()[at].as_slice(),
        }
    }
}

impl<'a> StateView<'a> {
    /// How the names of the state are written.
    pub fn naming(self, legend: &'a Legend) -> StateNaming<'a>
        ensures { naming_in result ≡ naming_of (legend_in legend.entry.now) (explained_in self.entry) }
    {
        StateNaming {
            legend,
            holdings: self.holdings,
        }
    }
}
