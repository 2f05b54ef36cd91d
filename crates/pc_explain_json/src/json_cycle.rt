//! The cycles of a schedule as JSON values.
ghost use Rattle.std.specs.Prelude.{◌≡◌, ◌≤◌, ◌++◌, ◌∷◌, [], length, map, IfOk, OnOk};
ghost use Rattle.std.specs.List.{AllByRecursion};
ghost use Rattle.serde_json.specs.View.{members_view, view};
ghost use Rattle.pc_json.specs.Json.{list_of, whole, with_fields};
ghost use Rattle.pc_explain.specs.Explained.{schedule_in, HasEach};
ghost use Rattle.pc_explain.specs.Legends.{legend_in};
ghost use Rattle.pc_explain_json.specs.CycleJson.{link_json, links_json, chain_json};
ghost use Rattle.pc_explain_json.specs.CycleJson.{way_fields, count_fields, bound_fields, cycle_json};

use pc_cycles::{Chain, Cycle, Link, Transition};
use pc_explain::{Legend, Schedule, link_line, resource_words};
use pc_json::{optional_value, put_count};
use serde_json::{Map, Value, json, push, put};
use std::alloc::{AllocError, Global};

/// The cycles of a schedule, in their order.
pub(crate) fn cycles_value(
    alloc: Global,
    legend: &Legend,
    schedule: &Schedule,
    cycles: &[Cycle],
) -> Result<Value, AllocError>
    requires each { HasEach (schedule_in schedule.now) }
    requires circles { AllByRecursion (λ cycle. 1 ≤ length cycle.transitions) cycles.now }
    ensures { IfOk result (λ value. view value ≡ list_of (map (cycle_json legend.now.lines (schedule_in schedule.now)) cycles.now)) }
{
    let mut list = Vec::new(alloc);
    for cycle in cycles {
        let value = cycle_value(alloc, legend, schedule, cycle)?;
        push(&mut list, value)?;
    }
    Ok(Value::from(list))
}

/// A cycle of a schedule.
fn cycle_value(
    alloc: Global,
    legend: &Legend,
    schedule: &Schedule,
    cycle: &Cycle,
) -> Result<Value, AllocError>
    requires each { HasEach (schedule_in schedule.now) }
    requires some { 1 ≤ length cycle.now.transitions }
    ensures { IfOk result (λ value. view value ≡ cycle_json legend.now.lines (schedule_in schedule.now) cycle.now) }
{
    let mut members = Map::new(alloc);
    put_way(alloc, &mut members, cycle.transitions.as_slice())?;
    put_counts(alloc, &mut members, cycle)?;
    put_bounds(alloc, &mut members, legend, schedule, cycle)?;
    Ok(Value::from(members))
}

/// Puts the states on a cycle, and how many rows once around takes, into an object.
fn put_way(
    alloc: Global,
    members: &mut Map<String, Value>,
    transitions: &[Transition],
) -> Result<(), AllocError>
    ensures { OnOk result (members_view members.new.entries ≡ with_fields (members_view members.old.entries) (way_fields transitions.now)) }
{
    let states = numbers_value(alloc, transitions)?;
    put(members, alloc, "states", states)?;
    put_count(alloc, members, "rows", transitions.len() as u64)
}

/// The numbers of the states from which transitions lead, in their order.
fn numbers_value(alloc: Global, transitions: &[Transition]) -> Result<Value, AllocError>
    ensures { IfOk result (λ value. view value ≡ list_of (map (λ transition. whole transition.state) transitions.now)) }
{
    let mut list = Vec::new(alloc);
    for transition in transitions {
        push(&mut list, Value::from(transition.state))?;
    }
    Ok(Value::from(list))
}

/// Puts what stands on a cycle into an object.
fn put_counts(
    alloc: Global,
    members: &mut Map<String, Value>,
    cycle: &Cycle,
) -> Result<(), AllocError>
    ensures { OnOk result (members_view members.new.entries ≡ with_fields (members_view members.old.entries) (count_fields cycle.now)) }
{
    put_count(alloc, members, "iterations", u64::from(cycle.iterations))?;
    put_count(alloc, members, "items", u64::from(cycle.items))?;
    put_count(alloc, members, "tests", u64::from(cycle.tests))?;
    put_count(alloc, members, "taken", u64::from(cycle.taken))?;
    put_count(alloc, members, "loads_and_stores", u64::from(cycle.memory))
}

/// Puts how many rows once around a cycle takes at least, and whether it takes no more, into an object.
fn put_bounds(
    alloc: Global,
    members: &mut Map<String, Value>,
    legend: &Legend,
    schedule: &Schedule,
    cycle: &Cycle,
) -> Result<(), AllocError>
    requires each { HasEach (schedule_in schedule.now) }
    requires some { 1 ≤ length cycle.now.transitions }
    ensures { OnOk result (members_view members.new.entries
        ≡ with_fields (members_view members.old.entries) (bound_fields legend.now.lines (schedule_in schedule.now) cycle.now)) }
{
    let transitions = cycle.transitions.as_slice();
    let resource = Value::try_from_str(alloc, resource_words(cycle.resource))?;
    let chain = chain_value(alloc, legend, schedule, transitions, &cycle.chain)?;
    let bound = cycle.bound();
    put_count(alloc, members, "least_rows", u64::from(cycle.least_rows))?;
    put(members, alloc, "resource", resource)?;
    put(members, alloc, "chain", chain)?;
    put_count(alloc, members, "bound", u64::from(bound))?;
    let reached = bound as usize == transitions.len();
    put(members, alloc, "reached", Value::from(reached))
}

/// A chain round a cycle of these transitions, or null where there is none.
fn chain_value(
    alloc: Global,
    legend: &Legend,
    schedule: &Schedule,
    transitions: &[Transition],
    chain: &Option<Chain>,
) -> Result<Value, AllocError>
    requires each { HasEach (schedule_in schedule.now) }
    requires some { 1 ≤ length transitions.now }
    ensures { IfOk result (λ value. view value ≡ chain_json legend.now.lines (schedule_in schedule.now) transitions.now chain.now) }
{
    match chain {
        Some(chain) => {
            let lines = lines_value(alloc, legend, schedule, transitions, chain.links.as_slice())?;
            let least_rows = chain.bound();
            json!(in alloc; {"items": chain.items, "rounds": chain.rounds, "lines": lines, "least_rows": least_rows})
        }
        None => Ok(Value::Null),
    }
}

/// The lines of the items of a chain's links, in their order.
fn lines_value(
    alloc: Global,
    legend: &Legend,
    schedule: &Schedule,
    transitions: &[Transition],
    links: &[Link],
) -> Result<Value, AllocError>
    requires each { HasEach (schedule_in schedule.now) }
    requires some { 1 ≤ length transitions.now }
    ensures { IfOk result (λ value. view value ≡ list_of (links_json legend.now.lines (schedule_in schedule.now) transitions.now 0 links.now)) }
{
    let mut list = Vec::new(alloc);
    for (at, link) in links.iter().enumerate() {
        let line = link_line(legend, &schedule.told, transitions, at, *link);
        push_line(&mut list, link.item, line)?;
    }
    Ok(Value::from(list))
}

/// Appends the line of a link's item to a list of values, if it has an item.
fn push_line(list: &mut Vec<Value>, item: Option<u32>, line: Option<u32>) -> Result<(), AllocError>
    ensures { OnOk result (map view list.new.items ≡ map view list.old.items ++ link_json item line) }
{
    match item {
        Some(_) => push(list, optional_value(line)),
        None => Ok(()),
    }
}
