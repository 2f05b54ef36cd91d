//! The cycles of a schedule as lines: what stands on each, and how few rows it could take.
ghost use Rattle.std.specs.Prelude.{◌≡◌, ◌≤◌, ◌++◌, length, OnOk, string_bytes};
ghost use Rattle.std.specs.List.{AllByRecursion, flat_map};
ghost use Rattle.pc_word.specs.Line.{line};
ghost use Rattle.pc_automaton.specs.Automaton.{states_in};
ghost use Rattle.pc_told.specs.Tellings.{tellings_in};
ghost use Rattle.pc_view.specs.Listing.{lines_text, separator};
ghost use Rattle.pc_explain.specs.Links.{link_line};
ghost use Rattle.pc_explain_text.specs.CycleLines.{states_from, states_front, round_words, cycle_words, standing_words, needing_words, room_words};
ghost use Rattle.pc_explain_text.specs.CycleLines.{chain_front, line_words, item_lines, least_words, chain_words, chain_lines};
ghost use Rattle.pc_explain_text.specs.CycleLines.{bound_front, nearness, bound_words, cycle_lines};
ghost use Rattle.pc_explain_text.specs.models.Traced.{CanBeTraced};

use pc_cycles::{Chain, Cycle, Link, Transition};
use pc_explain::{Legend, link_line, resource_words};
use pc_told::Told;
use pc_view::part_of;
use pc_waiting::Resource;
use std::alloc::AllocError;

/// Appends the lines of cycles to a text.
pub(crate) fn push_cycles(
    text: &mut String,
    legend: &Legend,
    told: &Told,
    cycles: &[Cycle],
) -> Result<(), AllocError>
    requires traced { CanBeTraced told.now }
    requires circles { AllByRecursion (λ cycle. 1 ≤ length cycle.transitions) cycles.now }
    ensures { OnOk result (string_bytes text.new ≡ string_bytes text.old
        ++ lines_text (flat_map (cycle_lines legend.now.lines (states_in told.now.automaton) (tellings_in told.now.rows)) cycles.now)) }
{
    for cycle in cycles {
        push_cycle(text, legend, told, cycle)?;
    }
    Ok(())
}

/// Appends the lines of a cycle to a text.
fn push_cycle(
    text: &mut String,
    legend: &Legend,
    told: &Told,
    cycle: &Cycle,
) -> Result<(), AllocError>
    requires traced { CanBeTraced told.now }
    requires some { 1 ≤ length cycle.now.transitions }
    ensures { OnOk result (string_bytes text.new ≡ string_bytes text.old
        ++ lines_text (cycle_lines legend.now.lines (states_in told.now.automaton) (tellings_in told.now.rows) cycle.now)) }
{
    let transitions = cycle.transitions.as_slice();
    push_cycle_line(text, cycle)?;
    push_room_line(text, cycle)?;
    push_chain_line(text, legend, told, transitions, &cycle.chain)?;
    push_bound_line(text, cycle.bound(), transitions.len())
}

/// Appends the line of the states of a cycle to a text, with how many rows it takes, and how many iterations go by.
fn push_cycle_line(text: &mut String, cycle: &Cycle) -> Result<(), AllocError>
    ensures { OnOk result (string_bytes text.new ≡ string_bytes text.old ++ line (cycle_words cycle.now)) }
{
    let transitions = cycle.transitions.as_slice();
    push_states_front(text)?;
    push_states(text, transitions)?;
    push_round_words(text, transitions.len(), cycle.iterations)?;
    text.push_str("\n")
}

/// Appends what stands in front of the states of a cycle to a text.
#[tactic(auto, unfolding(crate::specs::CycleLines::states_front))]
fn push_states_front(text: &mut String) -> Result<(), AllocError>
    ensures { OnOk result (string_bytes text.new ≡ string_bytes text.old ++ states_front) }
{
    text.push_str("    cycle of states")
}

/// Appends the states from which transitions lead to a text.
fn push_states(text: &mut String, transitions: &[Transition]) -> Result<(), AllocError>
    ensures { OnOk result (string_bytes text.new ≡ string_bytes text.old ++ states_from 0 transitions.now) }
{
    for (place, transition) in transitions.iter().enumerate() {
        let (front, state) = (separator(place), transition.state);
        write!(text, "{front}{state}")?;
    }
    Ok(())
}

/// What stands in front of an element of a list, by its place.
fn separator(place: usize) -> &'static str
    ensures { result.now ≡ separator place }
{
    if place == 0 { " " } else { ", " }
}

/// Appends to a text how many rows once around takes, and how many iterations go by.
#[tactic(auto, unfolding(crate::specs::CycleLines::round_words))]
fn push_round_words(text: &mut String, rows: usize, iterations: u32) -> Result<(), AllocError>
    ensures { OnOk result (string_bytes text.new ≡ string_bytes text.old ++ round_words rows iterations) }
{
    write!(text, ": rows {rows}, iterations {iterations}")
}

/// Appends the line of what stands on a cycle to a text.
fn push_room_line(text: &mut String, cycle: &Cycle) -> Result<(), AllocError>
    ensures { OnOk result (string_bytes text.new ≡ string_bytes text.old ++ line (room_words cycle.now)) }
{
    push_room_words(text, cycle)?;
    text.push_str("\n")
}

/// Appends to a text what stands on a cycle, and how many rows have room for it.
#[tactic(auto, unfolding(crate::specs::CycleLines::room_words))]
fn push_room_words(text: &mut String, cycle: &Cycle) -> Result<(), AllocError>
    ensures { OnOk result (string_bytes text.new ≡ string_bytes text.old ++ room_words cycle.now) }
{
    push_standing_words(text, cycle)?;
    push_needing_words(text, cycle.least_rows, cycle.resource)
}

/// Appends to a text what stands on a cycle, and how many of its tests are taken.
#[tactic(auto, unfolding(crate::specs::CycleLines::standing_words))]
fn push_standing_words(text: &mut String, cycle: &Cycle) -> Result<(), AllocError>
    ensures { OnOk result (string_bytes text.new ≡ string_bytes text.old ++ standing_words cycle.now.items cycle.now.tests cycle.now.taken cycle.now.memory) }
{
    let (items, tests, taken, memory) = (cycle.items, cycle.tests, cycle.taken, cycle.memory);
    write!(
        text,
        "        items {items}, tests {tests} ({taken} taken), loads and stores {memory}"
    )
}

/// Appends to a text how many rows have room for what stands on a cycle, and of what there is too much for fewer.
#[tactic(auto, unfolding(crate::specs::CycleLines::needing_words))]
fn push_needing_words(text: &mut String, rows: u32, resource: Resource) -> Result<(), AllocError>
    ensures { OnOk result (string_bytes text.new ≡ string_bytes text.old ++ needing_words rows resource) }
{
    let resource = resource_words(resource);
    write!(text, ": at least {rows} rows, because of {resource}")
}

/// Appends the line of a chain round these transitions to a text, if there is one.
fn push_chain_line(
    text: &mut String,
    legend: &Legend,
    told: &Told,
    transitions: &[Transition],
    chain: &Option<Chain>,
) -> Result<(), AllocError>
    requires traced { CanBeTraced told.now }
    requires some { 1 ≤ length transitions.now }
    ensures { OnOk result (string_bytes text.new ≡ string_bytes text.old
        ++ lines_text (chain_lines legend.now.lines (states_in told.now.automaton) (tellings_in told.now.rows) transitions.now chain.now)) }
{
    match chain {
        None => Ok(()),
        Some(chain) => {
            push_chain_words(text, legend, told, transitions, chain)?;
            text.push_str("\n")
        }
    }
}

/// Appends to a text how long a chain is, the lines of its items in order, and how many rows it takes at least.
fn push_chain_words(
    text: &mut String,
    legend: &Legend,
    told: &Told,
    transitions: &[Transition],
    chain: &Chain,
) -> Result<(), AllocError>
    requires traced { CanBeTraced told.now }
    requires some { 1 ≤ length transitions.now }
    ensures { OnOk result (string_bytes text.new ≡ string_bytes text.old
        ++ chain_words legend.now.lines (states_in told.now.automaton) (tellings_in told.now.rows) transitions.now chain.now) }
{
    push_chain_front(text, chain)?;
    push_item_lines(text, legend, told, transitions, chain.links.as_slice())?;
    push_least_words(text, chain.bound())
}

/// Appends to a text how many items a chain has, and how many times round it goes.
#[tactic(auto, unfolding(crate::specs::CycleLines::chain_front))]
fn push_chain_front(text: &mut String, chain: &Chain) -> Result<(), AllocError>
    ensures { OnOk result (string_bytes text.new ≡ string_bytes text.old ++ chain_front chain.now) }
{
    let (items, rounds) = (chain.items, chain.rounds);
    write!(text, "        chain: items {items}, rounds {rounds}, lines")
}

/// Appends the lines of the items of a chain's links to a text.
fn push_item_lines(
    text: &mut String,
    legend: &Legend,
    told: &Told,
    transitions: &[Transition],
    links: &[Link],
) -> Result<(), AllocError>
    requires traced { CanBeTraced told.now }
    requires some { 1 ≤ length transitions.now }
    ensures { OnOk result (string_bytes text.new ≡ string_bytes text.old
        ++ item_lines (link_line legend.now.lines (states_in told.now.automaton) (tellings_in told.now.rows) transitions.now) 0 0 links.now) }
{
    let mut place = 0;
    for (at, link) in links.iter().enumerate() {
        if link.item.is_some() {
            let line = link_line(legend, told, transitions, at, *link);
            push_item_line(text, place, line)?;
            place += 1;
        }
    }
    Ok(())
}

/// Appends the line of an item to a text, or a question mark where it is not known, by its place among the items of the chain.
fn push_item_line(text: &mut String, place: usize, line: Option<u32>) -> Result<(), AllocError>
    ensures { OnOk result (string_bytes text.new ≡ string_bytes text.old ++ (separator place ++ line_words line)) }
{
    let front = separator(place);
    match line {
        None => write!(text, "{front}?"),
        Some(line) => write!(text, "{front}{line}"),
    }
}

/// Appends to a text how many rows are taken at least.
#[tactic(auto, unfolding(crate::specs::CycleLines::least_words))]
fn push_least_words(text: &mut String, rows: u32) -> Result<(), AllocError>
    ensures { OnOk result (string_bytes text.new ≡ string_bytes text.old ++ least_words rows) }
{
    write!(text, ": at least {rows} rows")
}

/// Appends the line of a bound to a text, with how near it is to the rows.
fn push_bound_line(text: &mut String, bound: u32, rows: usize) -> Result<(), AllocError>
    ensures { OnOk result (string_bytes text.new ≡ string_bytes text.old ++ line (bound_words bound rows)) }
{
    push_bound_front(text, bound, rows)?;
    push_nearness(text, bound, rows)?;
    text.push_str("\n")
}

/// Appends a bound, and of how many rows it is one, to a text.
#[tactic(auto, unfolding(crate::specs::CycleLines::bound_front))]
fn push_bound_front(text: &mut String, bound: u32, rows: usize) -> Result<(), AllocError>
    ensures { OnOk result (string_bytes text.new ≡ string_bytes text.old ++ bound_front bound rows) }
{
    write!(text, "        bound: rows {bound} of {rows}, ")
}

/// Appends to a text that a bound is reached, or else what percentage of the rows it is.
fn push_nearness(text: &mut String, bound: u32, rows: usize) -> Result<(), AllocError>
    ensures { OnOk result (string_bytes text.new ≡ string_bytes text.old ++ nearness bound rows) }
{
    if bound as usize == rows {
        return text.push_str("reached");
    }
    let share = part_of(10_000, u64::from(bound), rows as u64);
    write!(text, "{share} %")
}
