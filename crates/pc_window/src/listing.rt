//! The names that a tree uses and defines.
ghost use Rattle.std.specs.Prelude.{◌≡◌, ◌<◌, ◌++◌, length, slice_index_or, false, IfOk, OnOk};
ghost use Rattle.std.specs.List.{AllByRecursion};
ghost use Rattle.pc_window.specs.Names.{name_in, names_read, names_in_homes, free_uses, definitions_of, parameters_of, first_uses};
ghost use Rattle.pc_window.specs.Opening.{TreeBelow};
ghost use Rattle.pc_window.specs.Rebasing.{all_names};
ghost use Rattle.pc_window.specs.StoredWindow.{tree_in};
ghost use Rattle.pc_window.specs.models.Listing.{is_marked, and_names, unmarked};

use crate::NumberList;
use crate::home::Home;
use crate::listed_names::ListedNames;
use crate::tree::WindowTree;
use pc_word::{Item, Operand, Operands};
use std::alloc::{AllocError, Global};

/// The parameters of a tree, in the order of first use, where its names are below a number.
#[tactic(auto, using(crate::proofs::Listed::parameters))]
pub fn parameters_of(
    alloc: Global,
    tree: &WindowTree,
    names: usize,
) -> Result<NumberList, AllocError>
    requires { TreeBelow names (tree_in tree.now) }
    ensures { IfOk result (λ parameters. parameters ≡ parameters_of (tree_in tree.now)) }
{
    let mut on_path = vec![in alloc; false; names]?;
    let mut found = ListedNames::new(alloc, names)?;
    add_parameters(tree, &mut on_path, &mut found)?;
    Ok(found.into_names())
}

/// These parameters of a tree, and then the names that it defines, in preorder, each once, with marks
/// for the names below a number.
#[tactic(auto, using(crate::proofs::Listed::definitions))]
pub fn all_names(
    alloc: Global,
    tree: &WindowTree,
    parameters: &[u32],
    names: usize,
) -> Result<NumberList, AllocError>
    requires { parameters.now ≡ parameters_of (tree_in tree.now) }
    ensures { IfOk result (λ all. all ≡ all_names (tree_in tree.now)) }
{
    let mut defined = ListedNames::new(alloc, names)?;
    add_definitions(tree, &mut defined)?;
    let mut all = Vec::from_slice(alloc, parameters)?;
    all.extend_from_slice(defined.into_names().as_slice())?;
    Ok(NumberList::from_vec(all))
}

/// Adds the names that a tree uses and does not define above, but for those that are marked. The marks
/// of what is defined on the path come and go with it.
#[tactic(auto, using(crate::proofs::Walked::paths))]
fn add_parameters(
    tree: &WindowTree,
    on_path: &mut [bool],
    found: &mut ListedNames,
) -> Result<(), AllocError>
    requires { TreeBelow (length on_path.old) (tree_in tree.now) }
    ensures path { OnOk result (on_path.new ≡ on_path.old) }
    ensures found { OnOk result (found.new ≡ and_names found.old (unmarked on_path.old (free_uses (tree_in tree.now)))) }
{
    match tree {
        WindowTree::Step { item, rest, .. } => {
            add_read(on_path, *item, found)?;
            match item.dest() {
                None => add_parameters(rest, on_path, found)?,
                Some(dest) => {
                    let before = is_marked(on_path, dest);
                    on_path[dest as usize] = true;
                    add_parameters(rest, on_path, found)?;
                    on_path[dest as usize] = before;
                }
            }
            Ok(())
        }
        WindowTree::Test { on, yes, no, .. } => {
            add_used(on_path, *on, found)?;
            add_parameters(yes, on_path, found)?;
            add_parameters(no, on_path, found)?;
            Ok(())
        }
        WindowTree::Node { below } => add_parameters(below, on_path, found),
        WindowTree::Exit { homes, .. } => add_homes(on_path, homes.as_slice(), found),
        WindowTree::Stop => Ok(()),
        WindowTree::Trap { .. } => Ok(()),
    }
}

/// Adds the names that a tree defines.
#[tactic(auto, using(crate::proofs::Walked::definitions))]
fn add_definitions(tree: &WindowTree, found: &mut ListedNames) -> Result<(), AllocError>
    ensures { OnOk result (found.new ≡ and_names found.old (definitions_of (tree_in tree.now))) }
{
    match tree {
        WindowTree::Step { item, rest, .. } => {
            if let Some(dest) = item.dest() {
                found.add(dest)?;
            }
            add_definitions(rest, found)?;
            Ok(())
        }
        WindowTree::Test { yes, no, .. } => {
            add_definitions(yes, found)?;
            add_definitions(no, found)?;
            Ok(())
        }
        WindowTree::Node { below } => add_definitions(below, found),
        WindowTree::Exit { .. } => Ok(()),
        WindowTree::Stop => Ok(()),
        WindowTree::Trap { .. } => Ok(()),
    }
}

/// Adds the names that an item reads, but for those that are marked.
#[tactic(auto, using(crate::proofs::Walked::names))]
fn add_read(on_path: &[bool], item: Item, found: &mut ListedNames) -> Result<(), AllocError>
    ensures { OnOk result (found.new ≡ and_names found.old (unmarked on_path.now (names_read item))) }
{
    match item.operands() {
        Operands::None => Ok(()),
        Operands::One(one) => add_used(on_path, one, found),
        Operands::Two(one, other) => {
            add_used(on_path, one, found)?;
            add_used(on_path, other, found)
        }
    }
}

/// Adds the names that homes read, but for those that are marked.
#[tactic(auto, using(crate::proofs::Walked::names))]
fn add_homes(on_path: &[bool], homes: &[Home], found: &mut ListedNames) -> Result<(), AllocError>
    ensures { OnOk result (found.new ≡ and_names found.old (unmarked on_path.now (names_in_homes homes.now))) }
{
    for home in homes {
        add_used(on_path, home.value, found)?;
    }
    Ok(())
}

/// Adds the name that an operand reads, unless it is marked.
fn add_used(on_path: &[bool], operand: Operand, found: &mut ListedNames) -> Result<(), AllocError>
    ensures { OnOk result (found.new ≡ and_names found.old (unmarked on_path.now (name_in operand))) }
{
    match operand {
        Operand::Name(name) => {
            if is_marked(on_path, name) {
                Ok(())
            } else {
                found.add(name)
            }
        }
        Operand::Lit(_) => Ok(()),
    }
}

/// Whether a name is marked.
fn is_marked(marks: &[bool], name: u32) -> bool
    ensures { result ≡ is_marked marks.now name }
{
    match marks.get(name as usize) {
        Some(mark) => *mark,
        None => false,
    }
}
