//! One name for definitions that are alike.
ghost use Rattle.std.specs.Prelude.{◌≡◌, ◌↔◌, Some, Bool, true, false, OnOk, IfOk};
ghost use Rattle.pc_window.specs.Rebasing.{is_in};
ghost use Rattle.pc_window.specs.Steps.{IsProper};
ghost use Rattle.pc_canon.specs.Pairs.{others};
ghost use Rattle.pc_shared.specs.NodeTree.{nodes_in};
ghost use Rattle.pc_shared.specs.models.Renaming.{pairs_in};
ghost use Rattle.pc_shared.specs.models.Merges.{FirstFree, Chooses, GivesName, Merges, HasMerged, giving_in, is_taken};
ghost use Rattle.pc_shared.specs.Merging.{definition_of, MergedFrom};
ghost use Rattle.pc_window.specs.StoredWindow.{forms_in, supply_in, window_in, InNodes, NodesBehind};

use crate::renaming::{Renaming, is_given, rename_homes, renamed_item, renamed_operand};
use pc_linear::LinForm;
use pc_window::{NameTable, Window, WindowTree};
use pc_word::{Item, Operand, OutOfMemory};
use std::alloc::Global;

/// From this number on there are no names.
const MOST_NAMES: usize = 1 << 31;

/// What defines a name: an item but for the name that it writes, with its tag and origin, and the name's
/// form.
#[derive(Clone, Copy)]
pub struct Definition {
    pub tag: u32,
    pub origin: u32,
    /// The item. It writes the name 0.
    pub item: Item,
    pub form: LinForm,
}

/// A name that was given to what is defined so.
#[derive(Clone, Copy)]
pub(crate) struct Given {
    pub(crate) definition: Definition,
    pub(crate) name: u32,
}

/// The names that were given so far, and the forms of all names.
#[derive(Drop)]
pub(crate) struct Giver {
    pub(crate) given: Vec<Given>,
    pub(crate) names: NameTable,
}

impl Definition {
    /// What defines a name by an item.
    fn of(names: &NameTable, tag: u32, origin: u32, item: Item, name: u32) -> Definition
        ensures { result ≡ definition_of (forms_in names.now.forms) tag origin item name }
    {
        Definition {
            tag,
            origin,
            item: item.with_dest(0),
            form: names.form(Operand::Name(name)),
        }
    }

    /// Whether it is the same as another one.
    fn is_same(&self, other: &Definition) -> bool
        ensures { (result ≡ true) ↔ (self.now ≡ other.now) }
    {
        if self.tag != other.tag {
            return false;
        }
        if self.origin != other.origin {
            return false;
        }
        if self.item == other.item {
            return self.form.always_equal(&other.form);
        }
        false
    }
}

/// Whether a name may be given to what is defined so, where other names stand above.
fn is_free(given: &Given, names: &Renaming, definition: &Definition) -> bool
    ensures free { result ≡ true → given.now.definition ≡ definition.now }
    ensures apart { result ≡ true → is_in given.now.name (others (pairs_in names.now)) ≡ false }
    ensures taken { result ≡ false → given.now.definition ≡ definition.now → is_in given.now.name (others (pairs_in names.now)) ≡ true }
{
    if !given.definition.is_same(definition) {
        return false;
    }
    !is_given(names, given.name)
}

/// The first name that may be given to what is defined so.
fn first_free(given: &[Given], names: &Renaming, definition: &Definition) -> Option<u32>
    ensures { FirstFree (others (pairs_in names.now)) definition.now given.now result }
{
    for one in given {
        if is_free(one, names, definition) {
            return Some(one.name);
        }
    }
    None
}

/// Whether a name was given.
fn is_taken(given: &[Given], name: u32) -> bool
    ensures { result ≡ is_taken name given.now }
{
    given.iter().any(|one| name == one.name)
}

/// Whether a name may stay: it was not given, and is in place of none that is defined above.
fn may_stay(given: &[Given], names: &Renaming, name: u32) -> bool
    ensures taken { result ≡ true → is_taken name given.now ≡ false }
    ensures above { result ≡ true → is_in name (others (pairs_in names.now)) ≡ false }
{
    if is_taken(given, name) {
        return false;
    }
    !is_given(names, name)
}

/// The old name, or a new one with this form where the old one was given or stands above.
#[tactic(auto, using(crate::proofs::Giving::choosing))]
fn own_or_new(
    table: &mut NameTable,
    given: &[Given],
    names: &Renaming,
    form: LinForm,
    old: u32,
) -> Result<u32, OutOfMemory>
    ensures { IfOk result (λ name. Chooses given.now (others (pairs_in names.now)) old form (supply_in table.old) name (supply_in table.new)) }
{
    if may_stay(given, names, old) {
        return Ok(old);
    }
    if table.forms.len() >= MOST_NAMES {
        return Err(OutOfMemory::Memory);
    }
    let name = table.forms.len() as u32;
    table.forms.push(form)?;
    Ok(name)
}

/// The name in place of an old one, for what is defined so: the first that was given to it and does
/// not stand above, or else its own, or a new one where its own was given to another or stands above.
#[tactic(auto, using(crate::proofs::Giving::giving))]
fn name_for(
    giver: &mut Giver,
    names: &Renaming,
    definition: Definition,
    old: u32,
) -> Result<u32, OutOfMemory>
    ensures { IfOk result (λ name. GivesName (pairs_in names.now) old definition (giving_in giver.old) name (giving_in giver.new)) }
{
    if let Some(name) = first_free(&giver.given, names, &definition) {
        return Ok(name);
    }
    let name = own_or_new(&mut giver.names, &giver.given, names, definition.form, old)?;
    giver.given.push(Given { definition, name })?;
    Ok(name)
}

/// Gives the definitions of a tree their names.
#[tactic(auto, using(crate::proofs::Giving::merging))]
fn merge_tree(tree: &mut WindowTree, names: &Renaming, giver: &mut Giver) -> Result<(), OutOfMemory>
    ensures merges { OnOk result (Merges (pairs_in names.now) (giving_in giver.old) (nodes_in tree.old) (giving_in giver.new) (nodes_in tree.new)) }
    ensures nodes { OnOk result ((at_root : Bool) → InNodes at_root tree.old → InNodes at_root tree.new) }
    ensures behind { OnOk result (NodesBehind tree.old → NodesBehind tree.new) }
{
    match tree {
        WindowTree::Step {
            tag,
            origin,
            item,
            rest,
        } => {
            let read = renamed_item(names, *item);
            match item.dest() {
                None => {
                    *item = read;
                    merge_tree(rest, names, giver)?;
                }
                Some(old) => {
                    let definition = Definition::of(&giver.names, *tag, *origin, read, old);
                    let name = name_for(giver, names, definition, old)?;
                    *item = read.with_dest(name);
                    let below = Renaming::Defined {
                        one: old,
                        other: name,
                        above: &*names,
                    };
                    merge_tree(rest, &below, giver)?;
                }
            }
        }
        WindowTree::Test { on, yes, no, .. } => {
            *on = renamed_operand(names, *on);
            merge_tree(yes, names, giver)?;
            merge_tree(no, names, giver)?;
        }
        WindowTree::Node { below } => merge_tree(below, names, giver)?,
        WindowTree::Exit { homes, .. } => rename_homes(names, homes),
        WindowTree::Stop => {}
        WindowTree::Trap { .. } => {}
    }
    Ok(())
}

/// The window with one name for definitions that are alike.
fn merge(alloc: Global, window: Window) -> Result<Window, OutOfMemory>
    ensures merges { IfOk result (λ later. HasMerged window later) }
    ensures nodes { IfOk result (λ later. (at_root : Bool) → InNodes at_root window.tree → InNodes at_root later.tree) }
    ensures behind { IfOk result (λ later. NodesBehind window.tree → NodesBehind later.tree) }
{
    let Window {
        tree,
        names,
        limits,
        inside,
    } = window;
    let mut tree = tree;
    let mut giver = Giver {
        given: Vec::new(alloc),
        names,
    };
    merge_tree(&mut tree, &Renaming::Themselves, &mut giver)?;
    Ok(Window {
        tree,
        names: giver.names,
        limits,
        inside,
    })
}

/// The window with one name for definitions that are alike.
///
/// Two are alike where their items are equal but for the names that they write, at the same tag and
/// origin, and the names have one form. From the first on, in preorder, each gets the first name that
/// was given to one like it and does not stand above it; where there is none it keeps its own, or has
/// a new one where that was given to another or stands above by then. So trees that are equal but for names should become
/// equal, as far as they take no form variable of their own; that they do is tested. All else stays. It takes time quadratic in the
/// window. `Err` comes for want of memory alone, and where a name would be 2^31; the window is dropped
/// with it.
pub fn merged(alloc: Global, window: Window) -> Result<Window, OutOfMemory>
    ensures merged { IfOk result (λ later. IsProper (window_in window) → MergedFrom (window_in window) (window_in later)) }
    ensures nodes { IfOk result (λ later. (at_root : Bool) → InNodes at_root window.tree → InNodes at_root later.tree) }
    ensures behind { IfOk result (λ later. NodesBehind window.tree → NodesBehind later.tree) }
{
    let later = merge(alloc, window)?;
    Ok(later)
}
