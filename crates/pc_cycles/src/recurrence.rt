//! The search for the chain round a cycle that takes the most rows for each time round.
//!
//! Nothing is owed for what it finds, since each chain is looked at before it is told. It goes round the cycle from each carrier that
//! may stand at the beginning of its first row, and keeps for each carrier to which it comes the most items by which it came there.
ghost use Rattle.std.specs.Prelude.{◌<◌, ◌^◌, length, IfOk, IfSome};
ghost use Rattle.pc_automaton.specs.Automaton.{states_in};
ghost use Rattle.pc_told.specs.Tellings.{tellings_in};
ghost use Rattle.pc_cycles.specs.Chains.{IsChain};
ghost use Rattle.pc_cycles.specs.models.Circles.{AreThere, HaveFewLeaves};

use crate::carrier::Carrier;
use crate::chain::{Chain, Link, advance, is_chain};
use crate::rows::{leaf_at, push_told_items};
use crate::told_item::ToldItem;
use crate::transition::Transition;
use crate::{LinkList, ToldItemList};
use pc_automaton::AutomatonLeaf;
use pc_told::Told;
use pc_waiting::Waiting;
use pc_word::OutOfMemory;
use std::alloc::{AllocError, Global};

/// How many times round a chain may go.
const MOST_ROUNDS: u32 = 4;

/// What carries on from the beginning of a chain, by so many items and this link, if by any.
#[derive(Clone, Copy)]
struct Held {
    carrier: Carrier,
    items: u32,
    last: Option<usize>,
}

/// A link, and the number of the one before it, if there is one.
#[derive(Clone, Copy)]
struct Node {
    link: Link,
    before: Option<usize>,
}

/// A carrier at the end of a row: one from its beginning, or what the item with this number brings that takes one up.
#[derive(Clone, Copy)]
struct Brought {
    carrier: Carrier,
    item: Option<u32>,
    from: Held,
}

/// What came back to where it began.
#[derive(Clone, Copy)]
struct Closed {
    rounds: u32,
    held: Held,
}

/// A chain round a cycle, the one with the most items for each time round of those that the search finds.
pub(crate) fn recurrence(
    alloc: Global,
    told: &Told,
    transitions: &[Transition],
) -> Result<Option<Chain>, OutOfMemory>
    requires there { AreThere (states_in told.now.automaton) transitions.now }
    requires few { HaveFewLeaves (states_in told.now.automaton) }
    requires count { length told.now.automaton < 2 ^ 32 }
    ensures { IfOk result (λ chain. IfSome chain (IsChain (states_in told.now.automaton) (tellings_in told.now.rows) told.now.waiting transitions.now)) }
{
    let Some(chain) = search(alloc, told, transitions)? else {
        return Ok(None);
    };
    if !is_chain(told, transitions, &chain) {
        return Ok(None);
    }
    Ok(Some(chain))
}

/// Goes round the cycle from each carrier that may stand at the beginning of its first row.
fn search(
    alloc: Global,
    told: &Told,
    transitions: &[Transition],
) -> Result<Option<Chain>, OutOfMemory>
    requires there { AreThere (states_in told.now.automaton) transitions.now }
    requires few { HaveFewLeaves (states_in told.now.automaton) }
    requires count { length told.now.automaton < 2 ^ 32 }
{
    let mut nodes = Vec::new(alloc);
    let mut best = None;
    for start in starts(alloc, told, transitions)? {
        best = go_round(alloc, told, transitions, start, best, &mut nodes)?;
    }
    match best {
        None => Ok(None),
        Some(closed) => Ok(Some(chain_of(alloc, closed, &nodes)?)),
    }
}

/// The carriers that may stand at the beginning of the first row: the values of its state's parameters, and the items that wait behind the
/// last row and touch memory, input or output.
fn starts(
    alloc: Global,
    told: &Told,
    transitions: &[Transition],
) -> Result<Vec<Carrier>, OutOfMemory>
    requires there { AreThere (states_in told.now.automaton) transitions.now }
    requires few { HaveFewLeaves (states_in told.now.automaton) }
    requires count { length told.now.automaton < 2 ^ 32 }
{
    let mut starts = Vec::new(alloc);
    let (Some(first), Some(last)) = (transitions.first(), transitions.last()) else {
        return Ok(starts);
    };
    let state = told.automaton.state(first.state);
    for parameter in state.parameters.as_slice() {
        starts.push(Carrier::Value { name: *parameter })?;
    }
    push_waiting(told, *last, &mut starts)?;
    Ok(starts)
}

/// Appends the items that wait behind the row of a transition and touch memory, input or output, as it passes them on.
fn push_waiting(
    told: &Told,
    transition: Transition,
    starts: &mut Vec<Carrier>,
) -> Result<(), AllocError>
    requires there { transition.state < length (states_in told.now.automaton) }
    requires few { HaveFewLeaves (states_in told.now.automaton) }
{
    let Some(entries) = told.waiting.get(transition.state as usize) else {
        return Ok(());
    };
    let advance = advance(told, transition);
    for entry in entries.as_slice() {
        let waiting = Carrier::Waiting {
            iteration: entry.iteration,
            origin: entry.origin,
        };
        if let (true, Some(start)) = (is_kept_apart(*entry), passed_on(waiting, advance)) {
            starts.push(start)?;
        }
    }
    Ok(())
}

/// Whether it is an item that touches memory, input or output.
fn is_kept_apart(entry: Waiting) -> bool {
    match entry.what {
        Some(item) => item.is_memory() || item.is_effect(),
        None => false,
    }
}

/// The same item that waits, where the leaf goes on by so many iterations and it is not of an earlier one.
fn passed_on(carrier: Carrier, advance: Option<u32>) -> Option<Carrier> {
    match carrier {
        Carrier::Waiting { iteration, origin } => {
            let iteration = iteration.checked_sub(advance?)?;
            Some(Carrier::Waiting { iteration, origin })
        }
        Carrier::Value { .. } => None,
    }
}

/// The better of what was found before and what comes back to where it starts.
fn go_round(
    alloc: Global,
    told: &Told,
    transitions: &[Transition],
    start: Carrier,
    best: Option<Closed>,
    nodes: &mut Vec<Node>,
) -> Result<Option<Closed>, OutOfMemory>
    requires there { AreThere (states_in told.now.automaton) transitions.now }
    requires few { HaveFewLeaves (states_in told.now.automaton) }
    requires count { length told.now.automaton < 2 ^ 32 }
{
    let mut best = best;
    let mut held = Vec::new(alloc);
    held.push(Held {
        carrier: start,
        items: 0,
        last: None,
    })?;
    for round in 0..MOST_ROUNDS {
        for transition in transitions {
            held = carry_on(alloc, told, *transition, &held, nodes)?;
        }
        if let Some(back) = holder(&held, start) {
            best = better(
                best,
                Closed {
                    rounds: round + 1,
                    held: back,
                },
            );
        }
    }
    Ok(best)
}

/// The one with more items for each time round; one without an item is none.
fn better(best: Option<Closed>, other: Closed) -> Option<Closed> {
    if other.held.items == 0 {
        return best;
    }
    let Some(one) = best else {
        return Some(other);
    };
    let before = (one.held.items as u64).saturating_mul(other.rounds as u64);
    let now = (other.held.items as u64).saturating_mul(one.rounds as u64);
    if now > before { Some(other) } else { best }
}

/// What is held after a transition, with a link for each.
fn carry_on(
    alloc: Global,
    told: &Told,
    transition: Transition,
    held: &[Held],
    nodes: &mut Vec<Node>,
) -> Result<Vec<Held>, OutOfMemory>
    requires there { transition.state < length (states_in told.now.automaton) }
    requires few { HaveFewLeaves (states_in told.now.automaton) }
    requires count { length told.now.automaton < 2 ^ 32 }
{
    let mut after = Vec::new(alloc);
    if held.is_empty() {
        return Ok(after);
    }
    let brought = brought_by(alloc, told, transition, held)?;
    let advance = advance(told, transition);
    for it in brought {
        match it.carrier {
            Carrier::Value { name } => pass_value(told, transition, name, it, &mut after, nodes)?,
            Carrier::Waiting { .. } => {
                if let Some(to) = passed_on(it.carrier, advance) {
                    keep(it, to, &mut after, nodes)?;
                }
            }
        }
    }
    Ok(after)
}

/// What stands at the end of a row: all that is held, and what each item brings that takes some of it up.
fn brought_by(
    alloc: Global,
    told: &Told,
    transition: Transition,
    held: &[Held],
) -> Result<Vec<Brought>, OutOfMemory>
    requires there { transition.state < length (states_in told.now.automaton) }
    requires few { HaveFewLeaves (states_in told.now.automaton) }
{
    let mut brought = Vec::new(alloc);
    for it in held {
        brought.push(Brought {
            carrier: it.carrier,
            item: None,
            from: *it,
        })?;
    }
    let items = path_items(alloc, told, transition)?;
    let mut number: u32 = 0;
    for item in items.as_slice() {
        if let Some(from) = taken_up(*item, held) {
            push_brought(told, transition.state, *item, number, from, &mut brought)?;
        }
        number = number.saturating_add(1);
    }
    Ok(brought)
}

/// The items on the path of a transition, with what is told of each.
fn path_items(
    alloc: Global,
    told: &Told,
    transition: Transition,
) -> Result<ToldItemList, AllocError>
    requires there { transition.state < length (states_in told.now.automaton) }
    requires few { HaveFewLeaves (states_in told.now.automaton) }
{
    let mut items = ToldItemList::new(alloc);
    let state = told.automaton.state(transition.state);
    if let Some(row) = told.rows.get(transition.state as usize) {
        push_told_items(&state.row, row, transition.leaf, &mut items)?;
    }
    Ok(items)
}

/// Of what an item takes up, that which came there by the most items.
fn taken_up(item: ToldItem, held: &[Held]) -> Option<Held> {
    let mut most = None;
    for it in held {
        if item.takes_up(it.carrier) {
            most = more(most, *it);
        }
    }
    most
}

/// The one that came by more items.
fn more(one: Option<Held>, other: Held) -> Option<Held> {
    match one {
        Some(first) if first.items >= other.items => one,
        _ => Some(other),
    }
}

/// Appends what an item brings: its name's value, and the items that wait for it.
fn push_brought(
    told: &Told,
    state: u32,
    item: ToldItem,
    number: u32,
    from: Held,
    brought: &mut Vec<Brought>,
) -> Result<(), AllocError> {
    let number = Some(number);
    if let Some(name) = item.item.dest() {
        brought.push(Brought {
            carrier: Carrier::Value { name },
            item: number,
            from,
        })?;
    }
    let Some(entries) = told.waiting.get(state as usize) else {
        return Ok(());
    };
    for entry in entries.as_slice() {
        let carrier = Carrier::Waiting {
            iteration: entry.iteration,
            origin: entry.origin,
        };
        if item.is_met(entry.obstacle) && item.brings(Some(entries), carrier) {
            brought.push(Brought {
                carrier,
                item: number,
                from,
            })?;
        }
    }
    Ok(())
}

/// Passes a name's value on for each parameter for which it is an argument.
fn pass_value(
    told: &Told,
    transition: Transition,
    name: u32,
    it: Brought,
    after: &mut Vec<Held>,
    nodes: &mut Vec<Node>,
) -> Result<(), AllocError>
    requires there { transition.state < length (states_in told.now.automaton) }
    requires few { HaveFewLeaves (states_in told.now.automaton) }
    requires count { length told.now.automaton < 2 ^ 32 }
{
    let state = told.automaton.state(transition.state);
    let Some(
        AutomatonLeaf::To {
            state: next,
            arguments,
        },
    ) = leaf_at(&state.row, transition.leaf)
    else {
        return Ok(());
    };
    if *next >= told.automaton.count() {
        return Ok(());
    }
    let parameters = told.automaton.state(*next).parameters.as_slice();
    for (at, argument) in arguments.as_slice().iter().enumerate() {
        if let (true, Some(parameter)) = (argument.is_name(name), parameters.get(at)) {
            keep(it, Carrier::Value { name: *parameter }, after, nodes)?;
        }
    }
    Ok(())
}

/// Keeps what is passed on, with its link, where nothing that is kept came there by as many items.
fn keep(
    it: Brought,
    to: Carrier,
    after: &mut Vec<Held>,
    nodes: &mut Vec<Node>,
) -> Result<(), AllocError> {
    let items = match it.item {
        Some(_) => it.from.items.saturating_add(1),
        None => it.from.items,
    };
    if let Some(other) = holder(after, to) {
        if other.items >= items {
            return Ok(());
        }
    }
    let number = nodes.len();
    nodes.push(Node {
        link: Link { item: it.item, to },
        before: it.from.last,
    })?;
    after.retain(|other| !other.carrier.is_same(to));
    after.push(Held {
        carrier: to,
        items,
        last: Some(number),
    })?;
    Ok(())
}

/// What is held of a carrier, if it is.
fn holder(held: &[Held], carrier: Carrier) -> Option<Held> {
    for it in held {
        if it.carrier.is_same(carrier) {
            return Some(*it);
        }
    }
    None
}

/// The chain that came back.
fn chain_of(alloc: Global, closed: Closed, nodes: &[Node]) -> Result<Chain, AllocError> {
    let mut links = Vec::new(alloc);
    let mut next = closed.held.last;
    for _ in 0..nodes.len() {
        if let Some(node) = node_at(nodes, next) {
            links.push(node.link)?;
            next = node.before;
        }
    }
    links.reverse();
    Ok(Chain {
        rounds: closed.rounds,
        start: closed.held.carrier,
        links: LinkList::from_vec(links),
        items: closed.held.items,
    })
}

/// A link by its number, if there is one.
fn node_at(nodes: &[Node], number: Option<usize>) -> Option<Node> {
    nodes.get(number?).copied()
}
