//! Where the items of a chain round a cycle come from.
ghost use Rattle.std.specs.Prelude.{◌≡◌, ◌<◌, ◌≤◌, ◌^◌, length, Some};
ghost use Rattle.std.specs.List.{AllByRecursion};
ghost use Rattle.pc_word.specs.Row.{leaves_of};
ghost use Rattle.pc_automaton.specs.Automaton.{states_in};
ghost use Rattle.pc_told.specs.Tellings.{tellings_in};
ghost use Rattle.pc_explain.specs.Links.{origin_by, link_line};

use crate::legend::Legend;
use pc_cycles::{Link, Transition, item_origin};
use pc_told::Told;

/// The line of the item of a link of a chain round these transitions, by its place in the chain, if it has an item and its line is
/// known.
pub fn link_line(
    legend: &Legend,
    told: &Told,
    transitions: &[Transition],
    at: usize,
    link: Link,
) -> Option<u32>
    requires some { 1 ≤ length transitions.now }
    requires as_many { length told.now.rows ≡ length told.now.automaton }
    requires few { length told.now.automaton < 2 ^ 32 }
    requires few_leaves { AllByRecursion (λ state. length (leaves_of state.row) < 2 ^ 32) (states_in told.now.automaton) }
    ensures { result ≡ link_line legend.now.lines (states_in told.now.automaton) (tellings_in told.now.rows) transitions.now at link }
{
    let transition = transitions.get(at % transitions.len())?;
    let origin = origin_by(told, *transition, link.item)?;
    legend.line(origin)
}

/// The node of the flow graph that an item comes from, by its number among those on the way of a transition.
fn origin_by(told: &Told, transition: Transition, number: Option<u32>) -> Option<u32>
    requires as_many { length told.now.rows ≡ length told.now.automaton }
    requires few { length told.now.automaton < 2 ^ 32 }
    requires few_leaves { AllByRecursion (λ state. length (leaves_of state.row) < 2 ^ 32) (states_in told.now.automaton) }
    ensures { result ≡ origin_by (states_in told.now.automaton) (tellings_in told.now.rows) (Some transition) number }
{
    let number = number?;
    let row = told.rows.get(transition.state as usize)?;
    let state = told.automaton.state(transition.state);
    item_origin(&state.row, row, transition.leaf, number)
}
