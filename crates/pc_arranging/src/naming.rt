//! Names for the homes of a stub that is entered: each by a copy that is put as far up as the home's
//! operand is known.
ghost use Rattle.std.specs.Prelude.{◌≡◌, ◌≤◌, ◌<◌, ◌+◌, ◌^◌, Bool, true, false, Some, None, length, slice_get, IfOk, OnOk};
ghost use Rattle.pc_word.specs.declared.item.Item.TheVariants.{Copy};
ghost use Rattle.pc_word.specs.Items.{dest_of};
ghost use Rattle.pc_window.specs.Tree.{tree_size, Pending};
ghost use Rattle.pc_window.specs.StoredWindow.{tree_in, supply_in, InNodes};
ghost use Rattle.pc_arranging.specs.Naming.{home_at, with_value, with_home, writes_operand, copied_below, or_at_root, named_home, named_homes, home_count};
ghost use Rattle.pc_arranging.specs.models.Doing.{made_if, tree_if};

use crate::numbering::leaf_count;
use pc_window::{Home, HomeList, NameTable, WindowTree};
use pc_word::{Item, Operand};
use std::alloc::{AllocError, Global};

/// The tag of a stub, and the operand of one of its homes.
#[derive(Clone, Copy, Debug)]
pub(crate) struct FoundHome {
    pub(crate) tag: u32,
    pub(crate) operand: Operand,
}

/// How many homes the stub with a number among the leaves has.
#[tactic(auto, using(crate::proofs::Homes::counting))]
pub(crate) fn home_count(tree: &WindowTree, leaf: u32) -> usize
    requires { tree_size (tree_in tree.now) < 2 ^ 30 }
    ensures { result ≡ home_count (tree_in tree.now) leaf }
{
    match tree {
        WindowTree::Step { rest, .. } => home_count(rest, leaf),
        WindowTree::Test { yes, no, .. } => {
            let on_yes = leaf_count(yes);
            if leaf < on_yes {
                return home_count(yes, leaf);
            }
            home_count(no, leaf - on_yes)
        }
        WindowTree::Node { below } => home_count(below, leaf),
        WindowTree::Exit { homes, .. } => homes.len(),
        WindowTree::Stop => 0,
        WindowTree::Trap { .. } => 0,
    }
}

/// A home of the stub with a number among the leaves.
#[tactic(auto, using(crate::proofs::Homes::finding))]
fn home_at(tree: &WindowTree, leaf: u32, home: u32) -> Option<FoundHome>
    requires { tree_size (tree_in tree.now) < 2 ^ 30 }
    ensures { result ≡ home_at (tree_in tree.now) leaf home }
{
    match tree {
        WindowTree::Step { rest, .. } => home_at(rest, leaf, home),
        WindowTree::Test { yes, no, .. } => {
            let on_yes = leaf_count(yes);
            if leaf < on_yes {
                return home_at(yes, leaf, home);
            }
            home_at(no, leaf - on_yes, home)
        }
        WindowTree::Node { below } => home_at(below, leaf, home),
        WindowTree::Exit { tag, homes, .. } => {
            if leaf != 0 {
                return None;
            }
            match homes.as_slice().get(home as usize) {
                None => None,
                Some(found) => Some(FoundHome {
                    tag: *tag,
                    operand: found.value,
                }),
            }
        }
        WindowTree::Stop => None,
        WindowTree::Trap { .. } => None,
    }
}

/// A home of a list.
fn home_in(homes: &HomeList, at: usize) -> Home
    requires { at < length homes.now }
    ensures { slice_get homes.now at ≡ Some result }
{
    homes.as_slice()[at]
}

/// Gives a home of a list another value.
#[tactic(auto, using(crate::proofs::Homes::setting))]
fn set_value(homes: &mut HomeList, home: u32, value: Operand)
    ensures { homes.new ≡ with_value value homes.old home }
{
    if (home as usize) < homes.len() {
        let variable = home_in(homes, home as usize).variable;
        homes.set(home as usize, Home { variable, value });
    }
}

/// Gives a home of the stub with a number among the leaves another value.
#[tactic(auto, using(crate::proofs::Homes::giving))]
fn give_home(tree: &mut WindowTree, leaf: u32, home: u32, value: Operand)
    requires { tree_size (tree_in tree.old) < 2 ^ 30 }
    ensures tree { tree_in tree.new ≡ with_home value (tree_in tree.old) leaf home }
    ensures size { tree_size (tree_in tree.new) ≡ tree_size (tree_in tree.old) }
    ensures nodes { (at_root : Bool) → InNodes at_root tree.old → InNodes at_root tree.new }
{
    match tree {
        WindowTree::Step { rest, .. } => give_home(rest, leaf, home, value),
        WindowTree::Test { yes, no, .. } => {
            let on_yes = leaf_count(yes);
            if leaf < on_yes {
                give_home(yes, leaf, home, value)
            } else {
                give_home(no, leaf - on_yes, home, value)
            }
        }
        WindowTree::Node { below } => give_home(below, leaf, home, value),
        WindowTree::Exit { homes, .. } => set_value(homes, home, value),
        WindowTree::Stop => {}
        WindowTree::Trap { .. } => {}
    }
}

/// Whether what an item writes is this operand.
fn writes_operand(item: Item, from: Operand) -> bool
    ensures { result ≡ writes_operand (dest_of item) from }
{
    match from {
        Operand::Name(name) => item.writes(name),
        Operand::Lit(_) => false,
    }
}

/// A copy above a tree, in a node of its own.
fn copy_node(
    alloc: Global,
    tag: u32,
    name: u32,
    from: Operand,
    rest: WindowTree,
) -> Result<WindowTree, AllocError>
    ensures tree { IfOk result (λ it. tree_in it ≡ Pending tag 0 (Copy name from) (tree_in rest)) }
    ensures nodes { InNodes false rest → IfOk result (λ it. InNodes false it) }
{
    let rest = Box::new(alloc, rest)?;
    let below = Box::new(
        alloc,
        WindowTree::Step {
            tag,
            origin: 0,
            item: Item::Copy { dest: name, from },
            rest,
        },
    )?;
    Ok(WindowTree::Node { below })
}

/// Puts a copy above what stands at a place below an item or test.
fn put_copy(
    alloc: Global,
    tag: u32,
    name: u32,
    from: Operand,
    tree: &mut WindowTree,
) -> Result<(), AllocError>
    ensures tree { OnOk result (tree_in tree.new ≡ Pending tag 0 (Copy name from) (tree_in tree.old)) }
    ensures size { OnOk result (tree_size (tree_in tree.new) ≡ tree_size (tree_in tree.old) + 1) }
    ensures nodes { InNodes false tree.old → OnOk result (InNodes false tree.new) }
{
    let rest = std::mem::replace(tree, WindowTree::Stop);
    *tree = copy_node(alloc, tag, name, from, rest)?;
    Ok(())
}

/// Puts a copy right below the last item above a leaf that writes its operand. Says whether there is
/// one; the tree stays as it is where there is none.
#[tactic(auto, using(crate::proofs::Homes::copying))]
fn copy_below(
    alloc: Global,
    tag: u32,
    name: u32,
    from: Operand,
    tree: &mut WindowTree,
    leaf: u32,
) -> Result<bool, AllocError>
    requires { tree_size (tree_in tree.old) < 2 ^ 30 }
    ensures tree { IfOk result (λ done. copied_below tag name from (tree_in tree.old) leaf ≡ tree_if done (tree_in tree.new)) }
    ensures size { IfOk result (λ done. done ≡ true → tree_size (tree_in tree.new) ≡ tree_size (tree_in tree.old) + 1) }
    ensures same { IfOk result (λ done. done ≡ false → tree_in tree.new ≡ tree_in tree.old) }
    ensures nodes { (at_root : Bool) → InNodes at_root tree.old → IfOk result (λ done. InNodes at_root tree.new) }
{
    match tree {
        WindowTree::Step { item, rest, .. } => {
            if copy_below(alloc, tag, name, from, rest, leaf)? {
                return Ok(true);
            }
            if !writes_operand(*item, from) {
                return Ok(false);
            }
            put_copy(alloc, tag, name, from, rest)?;
            Ok(true)
        }
        WindowTree::Test { yes, no, .. } => {
            let on_yes = leaf_count(yes);
            if leaf < on_yes {
                return copy_below(alloc, tag, name, from, yes, leaf);
            }
            copy_below(alloc, tag, name, from, no, leaf - on_yes)
        }
        WindowTree::Node { below } => copy_below(alloc, tag, name, from, below, leaf),
        WindowTree::Exit { .. } => Ok(false),
        WindowTree::Stop => Ok(false),
        WindowTree::Trap { .. } => Ok(false),
    }
}

/// Puts a copy as far up above a leaf as its operand is known.
#[tactic(auto, using(crate::proofs::Homes::placing))]
fn copy_above(
    alloc: Global,
    tag: u32,
    name: u32,
    from: Operand,
    tree: &mut WindowTree,
    leaf: u32,
) -> Result<(), AllocError>
    requires { tree_size (tree_in tree.old) < 2 ^ 30 }
    ensures tree { OnOk result (tree_in tree.new ≡ or_at_root tag name from (tree_in tree.old) (copied_below tag name from (tree_in tree.old) leaf)) }
    ensures size { OnOk result (tree_size (tree_in tree.new) ≡ tree_size (tree_in tree.old) + 1) }
    ensures nodes { InNodes false tree.old → OnOk result (InNodes false tree.new) }
{
    if copy_below(alloc, tag, name, from, tree, leaf)? {
        return Ok(());
    }
    put_copy(alloc, tag, name, from, tree)
}

/// Gives a home of a stub the next name. Says whether there is such a home.
#[tactic(auto, using(crate::proofs::Homes::naming))]
fn name_home(
    alloc: Global,
    tree: &mut WindowTree,
    names: &mut NameTable,
    leaf: u32,
    home: u32,
) -> Result<bool, AllocError>
    requires small { tree_size (tree_in tree.old) + 1 < 2 ^ 30 }
    requires nodes { InNodes false tree.old }
    requires names { length names.old.forms < 2 ^ 31 }
    requires variables { names.old.next_variable < 2 ^ 31 }
    ensures named { IfOk result (λ done. named_home (record { tree = tree_in tree.old; names = supply_in names.old }) leaf home (home_at (tree_in tree.old) leaf home)
        ≡ made_if done (record { tree = tree_in tree.new; names = supply_in names.new })) }
    ensures nodes { IfOk result (λ done. done ≡ true → InNodes false tree.new) }
    ensures size { IfOk result (λ done. done ≡ true → tree_size (tree_in tree.new) ≡ tree_size (tree_in tree.old) + 1) }
    ensures count { IfOk result (λ done. length names.new.forms ≤ length names.old.forms + 1) }
    ensures variables { IfOk result (λ done. names.new.next_variable ≤ names.old.next_variable + 1) }
{
    let Some(found) = home_at(tree, leaf, home) else {
        return Ok(false);
    };
    let name = names.add(None)?;
    copy_above(alloc, found.tag, name, found.operand, tree, leaf)?;
    give_home(tree, leaf, home, Operand::Name(name));
    Ok(true)
}

/// Gives so many homes of a stub names, from a number on. Says whether there are so many.
#[tactic(auto, using(crate::proofs::Homes::naming_all))]
pub(crate) fn name_homes(
    alloc: Global,
    tree: &mut WindowTree,
    names: &mut NameTable,
    leaf: u32,
    home: u32,
    count: u32,
) -> Result<bool, AllocError>
    requires small { tree_size (tree_in tree.old) + count < 2 ^ 30 }
    requires nodes { InNodes false tree.old }
    requires names { length names.old.forms + count ≤ 2 ^ 31 }
    requires variables { names.old.next_variable + count ≤ 2 ^ 31 }
    requires homes { home + count < 2 ^ 31 }
    ensures named { IfOk result (λ done. named_homes count (record { tree = tree_in tree.old; names = supply_in names.old }) leaf home
        ≡ made_if done (record { tree = tree_in tree.new; names = supply_in names.new })) }
    ensures nodes { IfOk result (λ done. done ≡ true → InNodes false tree.new) }
    ensures size { IfOk result (λ done. done ≡ true → tree_size (tree_in tree.new) ≡ tree_size (tree_in tree.old) + count) }
    ensures count { IfOk result (λ done. length names.new.forms ≤ length names.old.forms + count) }
    ensures variables { IfOk result (λ done. names.new.next_variable ≤ names.old.next_variable + count) }
{
    if count == 0 {
        return Ok(true);
    }
    if !name_home(alloc, tree, names, leaf, home)? {
        return Ok(false);
    }
    name_homes(alloc, tree, names, leaf, home + 1, count - 1)
}
