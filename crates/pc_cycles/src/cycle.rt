//! Cycles of states.
ghost use Rattle.std.specs.Prelude.{◌≡◌, ◌<◌, ◌^◌, length, IfOk};
ghost use Rattle.std.specs.List.{count_by};
ghost use Rattle.pc_word.specs.Items.{is_memory};
ghost use Rattle.pc_automaton.specs.Automaton.{states_in};
ghost use Rattle.pc_told.specs.Tellings.{tellings_in};
ghost use Rattle.pc_cycles.specs.Cycles.{IsCycle};
ghost use Rattle.pc_cycles.specs.models.Circles.{IsCircle};
ghost use Rattle.pc_cycles.specs.models.Walking.{IsGround};

use crate::TransitionList;
use crate::along::{items_along, origins_along, taken_along, tests_along};
use crate::chain::Chain;
use crate::frequency::greatest_count;
use crate::recurrence::recurrence;
use crate::resource::scarcest;
use pc_told::{Told, resource_bound};
use pc_waiting::Resource;
use pc_word::{Item, Limits, OutOfMemory};
use std::alloc::Global;

/// A cycle of states: a way from a state back to it, on which no state stands twice.
///
/// Once around takes as many rows as it has transitions. What is counted stands on the path through the row of each of its states
/// that ends at the leaf which leads on.
#[derive(Debug, Drop)]
pub struct Cycle {
    /// The transitions, each from the state to which the one before leads, and the first from the state to which the last one leads.
    pub transitions: TransitionList,
    /// How many iterations of the loop go by once around: the greatest number of tests with one origin, since a node's test is done once
    /// an iteration; where there is no test, of items.
    pub iterations: u32,
    /// How many items stand there.
    pub items: u32,
    /// How many tests.
    pub tests: u32,
    /// How many of the tests are taken: the way goes on to their yes side. Where the loop's own leads round by its yes side and as many
    /// are taken as iterations go by, no other test is.
    pub taken: u32,
    /// How many loads and stores, which are items too.
    pub memory: u32,
    /// The least number of rows that has room for so many.
    pub least_rows: u32,
    /// Of what there is too much for fewer rows: the first of which that is so.
    pub resource: Resource,
    /// A chain of items round it, where one is found: of those that go up to four times round, one with the most items for each time
    /// round, as far as the search sees. It looks at the values that items read and write, and at items which wait because they may
    /// not stand in one row with the one before; a longer chain may be passed over.
    pub chain: Option<Chain>,
}

impl Cycle {
    /// The cycle of these transitions, with what stands on it.
    pub(crate) fn along(
        alloc: Global,
        limits: Limits,
        told: &Told,
        transitions: TransitionList,
    ) -> Result<Cycle, OutOfMemory>
        requires ground { IsGround limits (states_in told.now.automaton) }
        requires circle { IsCircle (states_in told.now.automaton) transitions }
        ensures is { IfOk result (λ cycle. IsCycle limits (states_in told.now.automaton) (tellings_in told.now.rows) told.now.waiting cycle) }
        ensures same { IfOk result (λ cycle. cycle.transitions ≡ transitions) }
    {
        let items = items_along(alloc, told, transitions.as_slice())?;
        let tests = tests_along(alloc, told, transitions.as_slice())?;
        let taken = taken_along(alloc, told, transitions.as_slice())?;
        let memory = memory_count(items.as_slice());
        let items = items.len() as u32;
        let tests = tests.len() as u32;
        let taken = taken.len() as u32;
        let origins = origins_along(alloc, told, transitions.as_slice(), tests == 0)?;
        let least_rows = resource_bound(limits, items, tests, memory);
        let chain = recurrence(alloc, told, transitions.as_slice())?;
        Ok(Cycle {
            transitions,
            iterations: greatest_count(origins.as_slice()),
            items,
            tests,
            taken,
            memory,
            least_rows,
            resource: scarcest(limits, items, tests, memory, least_rows),
            chain,
        })
    }
}

/// How many of some items are loads and stores.
fn memory_count(items: &[Item]) -> u32
    requires { length items.now < 2 ^ 32 }
    ensures { result ≡ count_by is_memory items.now }
{
    items.iter().filter(|item| item.is_memory()).count() as u32
}
