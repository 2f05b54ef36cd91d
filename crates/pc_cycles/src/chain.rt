//! Chains of items round a cycle.
ghost use Rattle.std.specs.Prelude.{◌≡◌, ◌<◌, ◌^◌, length, slice_get, is_some, IfSome, Some, true};
ghost use Rattle.std.specs.List.{count_by};
ghost use Rattle.pc_automaton.specs.Automaton.{states_in};
ghost use Rattle.pc_told.specs.Tellings.{tellings_in};
ghost use Rattle.pc_cycles.specs.Transitions.{told_items_from, advance_from};
ghost use Rattle.pc_cycles.specs.Chains.{argument_for, argument_of, passed_from, passes_as, GoesThrough, Carries, Carry, IsChain};
ghost use Rattle.pc_cycles.specs.models.Circles.{AreThere, HaveFewLeaves};

use crate::LinkList;
use crate::carrier::Carrier;
use crate::rows::{advance_at, leaf_at, told_item_at};
use crate::told_item::ToldItem;
use crate::transition::Transition;
use pc_automaton::AutomatonLeaf;
use pc_told::Told;
use pc_word::Operand;

/// How a chain is carried on through one row.
#[derive(Clone, Copy, Debug, PartialEq, Eq)]
pub struct Link {
    /// The item of the chain that stands in the row, by its number among the items on the path, counted from 0; none where what carries
    /// the chain on stays as it is.
    pub item: Option<u32>,
    /// What carries it on at the beginning of the next row.
    pub to: Carrier,
}

/// A chain of items round a cycle, each of which has to stand in a later row than the one before, and the first in a later one than the
/// last has some rounds before: it reads what that one wrote, or may not stand in one row with it. So each has a row of its own
/// among those of `rounds` times round, and once round takes no fewer than `items` divided by `rounds` rows.
#[derive(Debug, Drop)]
pub struct Chain {
    /// How many times round it goes.
    pub rounds: u32,
    /// What carries it on at the beginning of the first state's row, and again at the end.
    pub start: Carrier,
    /// How it is carried on, row by row.
    pub links: LinkList,
    /// How many of the links have an item.
    pub items: u32,
}

/// Whether these are the parts of a chain round a cycle.
pub(crate) fn is_chain(told: &Told, transitions: &[Transition], chain: &Chain) -> bool
    requires there { AreThere (states_in told.now.automaton) transitions.now }
    requires few { HaveFewLeaves (states_in told.now.automaton) }
    requires count { length told.now.automaton < 2 ^ 32 }
    ensures { result ≡ true → IsChain (states_in told.now.automaton) (tellings_in told.now.rows) told.now.waiting transitions.now chain.now }
{
    if chain.rounds == 0 {
        return false;
    }
    if chain.items == 0 {
        return false;
    }
    let Some(rows) = transitions.len().checked_mul(chain.rounds as usize) else {
        return false;
    };
    if chain.links.len() != rows {
        return false;
    }
    if item_count(chain.links.as_slice()) != chain.items as usize {
        return false;
    }
    are_carried(told, transitions, chain.links.as_slice(), chain.start)
}

/// How many links have an item.
fn item_count(links: &[Link]) -> usize
    ensures { result ≡ count_by (λ link. is_some link.item) links.now }
{
    links.iter().filter(|link| link.item.is_some()).count()
}

/// Whether links carry on round a cycle, back to where they start.
fn are_carried(told: &Told, transitions: &[Transition], links: &[Link], start: Carrier) -> bool
    requires there { AreThere (states_in told.now.automaton) transitions.now }
    requires few { HaveFewLeaves (states_in told.now.automaton) }
    requires count { length told.now.automaton < 2 ^ 32 }
    ensures { result ≡ true → Carry (states_in told.now.automaton) (tellings_in told.now.rows) told.now.waiting transitions.now 0 start links.now start }
{
    if transitions.is_empty() {
        return false;
    }
    let mut carrier = start;
    for at in 0..links.len() {
        let transition = transitions[at % transitions.len()];
        if !carries(told, transition, carrier, links[at]) {
            return false;
        }
        carrier = links[at].to;
    }
    carrier.is_same(start)
}

/// Whether a link carries on by a transition.
fn carries(told: &Told, transition: Transition, carrier: Carrier, link: Link) -> bool
    requires there { transition.state < length (states_in told.now.automaton) }
    requires few { HaveFewLeaves (states_in told.now.automaton) }
    requires count { length told.now.automaton < 2 ^ 32 }
    ensures { result ≡ true → Carries (states_in told.now.automaton) (tellings_in told.now.rows) told.now.waiting transition carrier link }
{
    match passes_as(told, transition, link.to) {
        Some(brought) => goes_through(told, transition, carrier, link.item, brought),
        None => false,
    }
}

/// Whether a carrier goes through the row of a transition, and becomes another.
fn goes_through(
    told: &Told,
    transition: Transition,
    from: Carrier,
    item: Option<u32>,
    to: Carrier,
) -> bool
    requires there { transition.state < length (states_in told.now.automaton) }
    requires few { HaveFewLeaves (states_in told.now.automaton) }
    ensures { result ≡ true → GoesThrough
        (told_items_from (slice_get (states_in told.now.automaton) transition.state) (slice_get (tellings_in told.now.rows) transition.state) transition.leaf)
        (slice_get told.now.waiting transition.state) from item to }
{
    match item {
        None => from.is_same(to),
        Some(number) => match told_item(told, transition, number) {
            Some(it) => {
                it.takes_up(from) && it.brings(told.waiting.get(transition.state as usize), to)
            }
            None => false,
        },
    }
}

/// The item with this number on the path of a transition, with what is told of it, if there are so many.
fn told_item(told: &Told, transition: Transition, number: u32) -> Option<ToldItem>
    requires there { transition.state < length (states_in told.now.automaton) }
    requires few { HaveFewLeaves (states_in told.now.automaton) }
    ensures { result ≡ slice_get (told_items_from (slice_get (states_in told.now.automaton) transition.state) (slice_get (tellings_in told.now.rows) transition.state) transition.leaf) number }
{
    match told.rows.get(transition.state as usize) {
        Some(row) => {
            let state = told.automaton.state(transition.state);
            told_item_at(&state.row, row, transition.leaf, number)
        }
        None => None,
    }
}

/// By how many iterations what is left begins later after a transition, where anything is.
pub(crate) fn advance(told: &Told, transition: Transition) -> Option<u32>
    requires there { transition.state < length (states_in told.now.automaton) }
    requires few { HaveFewLeaves (states_in told.now.automaton) }
    ensures { result ≡ advance_from (slice_get (states_in told.now.automaton) transition.state) (slice_get (tellings_in told.now.rows) transition.state) transition.leaf }
{
    match told.rows.get(transition.state as usize) {
        Some(row) => {
            let state = told.automaton.state(transition.state);
            advance_at(&state.row, row, transition.leaf)
        }
        None => None,
    }
}

/// The carrier that a transition passes on as this one, if there is one whose iteration can be counted.
fn passes_as(told: &Told, transition: Transition, to: Carrier) -> Option<Carrier>
    requires there { transition.state < length (states_in told.now.automaton) }
    requires few { HaveFewLeaves (states_in told.now.automaton) }
    requires count { length told.now.automaton < 2 ^ 32 }
    ensures { IfSome result (λ carrier. passes_as (states_in told.now.automaton) (tellings_in told.now.rows) transition to ≡ Some carrier) }
{
    match to {
        Carrier::Value { name } => match passed(told, transition, name)? {
            Operand::Name(name) => Some(Carrier::Value { name }),
            Operand::Lit(_) => None,
        },
        Carrier::Waiting { iteration, origin } => {
            let iteration = iteration.checked_add(advance(told, transition)?)?;
            Some(Carrier::Waiting { iteration, origin })
        }
    }
}

/// The argument that a transition passes for a parameter.
fn passed(told: &Told, transition: Transition, parameter: u32) -> Option<Operand>
    requires there { transition.state < length (states_in told.now.automaton) }
    requires few { HaveFewLeaves (states_in told.now.automaton) }
    requires count { length told.now.automaton < 2 ^ 32 }
    ensures { result ≡ passed_from (states_in told.now.automaton) (slice_get (states_in told.now.automaton) transition.state) transition.leaf parameter }
{
    let state = told.automaton.state(transition.state);
    match leaf_at(&state.row, transition.leaf) {
        Some(AutomatonLeaf::To { state, arguments }) => {
            argument_of(told, *state, arguments.as_slice(), parameter)
        }
        Some(AutomatonLeaf::Out { .. }) => None,
        Some(AutomatonLeaf::Stop) => None,
        Some(AutomatonLeaf::Trap { .. }) => None,
        None => None,
    }
}

/// The argument for a parameter of a state, if the state is there.
fn argument_of(told: &Told, state: u32, arguments: &[Operand], parameter: u32) -> Option<Operand>
    requires { length told.now.automaton < 2 ^ 32 }
    ensures { result ≡ argument_of (slice_get (states_in told.now.automaton) state) arguments.now parameter }
{
    if state >= told.automaton.count() {
        return None;
    }
    let state = told.automaton.state(state);
    argument_for(state.parameters.as_slice(), arguments, parameter)
}

/// The argument for a parameter.
fn argument_for(parameters: &[u32], arguments: &[Operand], parameter: u32) -> Option<Operand>
    ensures { result ≡ argument_for parameters.now arguments.now parameter }
{
    for (at, first) in parameters.iter().enumerate() {
        if at >= arguments.len() {
            return None;
        }
        if *first == parameter {
            return Some(arguments[at]);
        }
    }
    None
}
