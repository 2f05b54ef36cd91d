//! The names of a tree, in the order of their new numbers.
ghost use Rattle.std.specs.Prelude.{◌≡◌, ◌<◌, [], length, IfOk, OnOk};
ghost use Rattle.std.specs.List.{AllByRecursion};
ghost use Rattle.pc_window.specs.Names.{Scoped, uses, definitions_of, parameters_of};
ghost use Rattle.pc_window.specs.Opening.{TreeBelow};
ghost use Rattle.pc_window.specs.Rebasing.{all_names};
ghost use Rattle.pc_window.specs.StoredWindow.{tree_in};
ghost use Rattle.pc_window.specs.models.Listing.{and_name, and_names};
ghost use Rattle.pc_renumber.specs.models.Numbering.{AreNumbers};

use pc_window::{NumberList, WindowError, WindowTree};
use std::alloc::{AllocError, Global};

/// From this number on there are no names.
const MOST_NAMES: usize = 1 << 31;

/// A table in which so many names have no number.
#[tactic(auto, using(crate::proofs::Numbers::nothing))]
pub(crate) fn no_numbers(alloc: Global, count: usize) -> Result<Vec<Option<u32>>, AllocError>
    ensures many { IfOk result (λ numbers. length numbers.items ≡ count) }
    ensures none { IfOk result (λ numbers. AreNumbers numbers.items []) }
{
    let mut numbers = Vec::with_capacity(alloc, count)?;
    for name in 0..count {
        numbers.push(None)?;
    }
    Ok(numbers)
}

/// Lists the names of a tree and numbers them: these parameters first, and then the names that it
/// defines, in preorder, each once.
#[tactic(auto, using(crate::proofs::Listing::all_put))]
pub(crate) fn add_all(
    tree: &WindowTree,
    parameters: &[u32],
    names: &mut NumberList,
    numbers: &mut [Option<u32>],
) -> Result<(), WindowError>
    requires scoped { Scoped (uses (tree_in tree.now)) (tree_in tree.now) }
    requires parameters { parameters.now ≡ parameters_of (tree_in tree.now) }
    requires below { TreeBelow (length numbers.old) (tree_in tree.now) }
    requires parameters_below { AllByRecursion (λ name. name < length numbers.old) parameters.now }
    requires empty { names.old ≡ [] }
    requires numbered { AreNumbers numbers.old names.old }
    ensures names { OnOk result (names.new ≡ all_names (tree_in tree.now)) }
    ensures numbered { OnOk result (AreNumbers numbers.new names.new) }
{
    add_parameters(parameters, names, numbers)?;
    add_definitions(tree, names, numbers)
}

/// Adds parameters.
fn add_parameters(
    parameters: &[u32],
    names: &mut NumberList,
    numbers: &mut [Option<u32>],
) -> Result<(), WindowError>
    requires below { AllByRecursion (λ name. name < length numbers.old) parameters.now }
    requires numbered { AreNumbers numbers.old names.old }
    ensures names { OnOk result (names.new ≡ and_names names.old parameters.now) }
    ensures numbered { OnOk result (AreNumbers numbers.new names.new) }
{
    for at in 0..parameters.len() {
        add_name(parameters[at], names, numbers)?;
    }
    Ok(())
}

/// Adds the names that a tree defines.
#[tactic(auto, using(crate::proofs::Numbers::definitions))]
fn add_definitions(
    tree: &WindowTree,
    names: &mut NumberList,
    numbers: &mut [Option<u32>],
) -> Result<(), WindowError>
    requires below { TreeBelow (length numbers.old) (tree_in tree.now) }
    requires numbered { AreNumbers numbers.old names.old }
    ensures names { OnOk result (names.new ≡ and_names names.old (definitions_of (tree_in tree.now))) }
    ensures numbered { OnOk result (AreNumbers numbers.new names.new) }
{
    match tree {
        WindowTree::Step { item, rest, .. } => {
            if let Some(dest) = item.dest() {
                add_name(dest, names, numbers)?;
            }
            add_definitions(rest, names, numbers)
        }
        WindowTree::Test { yes, no, .. } => {
            add_definitions(yes, names, numbers)?;
            add_definitions(no, names, numbers)?;
            Ok(())
        }
        WindowTree::Node { below } => add_definitions(below, names, numbers),
        WindowTree::Exit { .. } => Ok(()),
        WindowTree::Stop => Ok(()),
        WindowTree::Trap { .. } => Ok(()),
    }
}

/// Puts a name behind the others and numbers it, unless it has a number. There is no room for it where
/// that would be 2^31.
#[tactic(auto, using(crate::proofs::Numbers::numbering))]
fn add_name(
    name: u32,
    names: &mut NumberList,
    numbers: &mut [Option<u32>],
) -> Result<(), WindowError>
    requires below { name < length numbers.old }
    requires numbered { AreNumbers numbers.old names.old }
    ensures names { OnOk result (names.new ≡ and_name names.old name) }
    ensures numbered { OnOk result (AreNumbers numbers.new names.new) }
{
    if numbers[name as usize].is_some() {
        return Ok(());
    }
    if names.len() >= MOST_NAMES {
        return Err(WindowError::Memory);
    }
    numbers[name as usize] = Some(names.len() as u32);
    Ok(names.push(name)?)
}
