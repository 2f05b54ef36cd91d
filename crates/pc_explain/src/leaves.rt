//! Leaves in words, with what they pass.
ghost use Rattle.std.specs.Prelude.{◌≡◌, ◌++◌, OnOk, string_bytes};
ghost use Rattle.pc_explain.specs.Naming.{naming_in};
ghost use Rattle.pc_explain.specs.Words.{opening, closing, arguments_from, homes_from, taking, nothing_taken, parameters_from};
ghost use Rattle.pc_explain.specs.Words.{advance_words, state_words, region_words, leaf_words};

use crate::naming::{StateNaming, named};
use crate::words::{HomeWords, shown};
use pc_automaton::AutomatonLeaf;
use pc_report::trap_words;
use pc_window::Home;
use pc_word::Operand;
use std::alloc::AllocError;

/// Appends a leaf of a state in a loop, whose header is this region, to a text. `advance` is the first iteration of which anything is
/// left there, if anything is.
pub fn push_leaf(
    text: &mut String,
    header: u32,
    naming: StateNaming,
    leaf: &AutomatonLeaf,
    advance: Option<u32>,
) -> Result<(), AllocError>
    ensures { OnOk result (string_bytes text.new ≡ string_bytes text.old ++ leaf_words header (naming_in naming.entry) leaf.now advance) }
{
    match leaf {
        AutomatonLeaf::To { state, arguments } => {
            push_state_number(text, *state)?;
            push_arguments(text, naming, arguments.as_slice())?;
            push_advance(text, advance)
        }
        AutomatonLeaf::Out { region, homes } => {
            push_region_number(text, header, *region)?;
            push_homes(text, naming, homes.as_slice())
        }
        AutomatonLeaf::Stop => text.push_str("stop"),
        AutomatonLeaf::Trap { kind, line } => {
            let kind = trap_words(*kind);
            write!(text, "trap: {kind} at line {line}")
        }
    }
}

/// Appends a state by its number, as the successor of another.
#[tactic(auto, unfolding(crate::specs::Words::state_words))]
fn push_state_number(text: &mut String, state: u32) -> Result<(), AllocError>
    ensures { OnOk result (string_bytes text.new ≡ string_bytes text.old ++ state_words state) }
{
    write!(text, "to state {state}")
}

/// Appends a region by its number, as the successor of a state, or, where it is the header of the loop, that this is the next iteration.
#[tactic(auto, unfolding(crate::specs::Words::region_words))]
fn push_region_number(text: &mut String, header: u32, region: u32) -> Result<(), AllocError>
    ensures { OnOk result (string_bytes text.new ≡ string_bytes text.old ++ region_words header region) }
{
    if region == header {
        return text.push_str("to the next iteration");
    }
    write!(text, "to region {region}")
}

/// Appends the first iteration of which anything is left at a leaf, if anything is.
fn push_advance(text: &mut String, advance: Option<u32>) -> Result<(), AllocError>
    ensures { OnOk result (string_bytes text.new ≡ string_bytes text.old ++ advance_words advance) }
{
    match advance {
        None => Ok(()),
        Some(advance) => write!(text, ", from +{advance} on"),
    }
}

/// Appends what is passed to a state, in brackets, if there is anything.
fn push_arguments(
    text: &mut String,
    naming: StateNaming,
    arguments: &[Operand],
) -> Result<(), AllocError>
    ensures { OnOk result (string_bytes text.new ≡ string_bytes text.old ++ arguments_from (naming_in naming.entry) 0 arguments.now) }
{
    for (place, argument) in arguments.iter().enumerate() {
        let (front, argument) = (opening(place), shown(naming, *argument));
        write!(text, "{front}{argument}")?;
    }
    text.push_str(closing(arguments.len()))
}

/// Appends the values of variables where a region comes next, in brackets, if there are any.
fn push_homes(text: &mut String, naming: StateNaming, homes: &[Home]) -> Result<(), AllocError>
    ensures { OnOk result (string_bytes text.new ≡ string_bytes text.old ++ homes_from (naming_in naming.entry) 0 homes.now) }
{
    for (place, home) in homes.iter().enumerate() {
        let home = HomeWords {
            naming,
            home: *home,
        };
        let front = opening(place);
        write!(text, "{front}{home}")?;
    }
    text.push_str(closing(homes.len()))
}

/// Appends the parameters that a state takes to a text.
pub(crate) fn push_parameters(
    text: &mut String,
    naming: StateNaming,
    parameters: &[u32],
) -> Result<(), AllocError>
    ensures { OnOk result (string_bytes text.new ≡ string_bytes text.old ++ parameters_from (naming_in naming.entry) 0 parameters.now) }
{
    for (place, name) in parameters.iter().enumerate() {
        let (front, name) = (taking(place), named(naming, *name));
        write!(text, "{front}{name}")?;
    }
    text.push_str(nothing_taken(parameters.len()))
}

/// What stands in front of an element of a list in brackets, by its place.
fn opening(place: usize) -> &'static str
    ensures { result.now ≡ opening place }
{
    if place == 0 { " (" } else { ", " }
}

/// What stands after so many elements of a list in brackets.
fn closing(count: usize) -> &'static str
    ensures { result.now ≡ closing count }
{
    if count == 0 { "" } else { ")" }
}

/// What stands in front of a parameter, by its place.
fn taking(place: usize) -> &'static str
    ensures { result.now ≡ taking place }
{
    if place == 0 { " " } else { ", " }
}

/// What stands in place of no parameters.
fn nothing_taken(count: usize) -> &'static str
    ensures { result.now ≡ nothing_taken count }
{
    if count == 0 { " nothing" } else { "" }
}
