//! Copies of windows.
ghost use Rattle.std.specs.Prelude.{◌≡◌, IfOk};
ghost use Rattle.pc_window.specs.Tree.{Pending, Undecided, Exit, Issued, Split, Unfinished};
ghost use Rattle.pc_window.specs.StoredWindow.{front_in, tree_in, window_in};

use pc_window::{FormList, HomeList, NameTable, Window, WindowTree};
use pc_word::{Item, Operand};
use std::alloc::{AllocError, Global};

/// An item above a tree.
fn with_item(
    alloc: Global,
    tag: u32,
    origin: u32,
    item: Item,
    rest: WindowTree,
) -> Result<WindowTree, AllocError>
    ensures tree { IfOk result (λ tree. tree_in tree ≡ Pending tag origin item (tree_in rest)) }
    ensures front { IfOk result (λ tree. front_in tree ≡ Issued tag origin item (front_in rest)) }
{
    let rest = Box::new(alloc, rest)?;
    Ok(WindowTree::Step {
        tag,
        origin,
        item,
        rest,
    })
}

/// A test above its two sides.
fn with_test(
    alloc: Global,
    tag: u32,
    origin: u32,
    on: Operand,
    yes: WindowTree,
    no: WindowTree,
) -> Result<WindowTree, AllocError>
    ensures tree { IfOk result (λ tree. tree_in tree ≡ Undecided tag origin on (tree_in yes) (tree_in no)) }
    ensures front { IfOk result (λ tree. front_in tree ≡ Split tag origin on (front_in yes) (front_in no)) }
{
    let yes = Box::new(alloc, yes)?;
    let no = Box::new(alloc, no)?;
    Ok(WindowTree::Test {
        tag,
        origin,
        on,
        yes,
        no,
    })
}

/// A leaf that leads to a node.
fn with_node(alloc: Global, below: WindowTree) -> Result<WindowTree, AllocError>
    ensures tree { IfOk result (λ tree. tree_in tree ≡ tree_in below) }
    ensures front { IfOk result (λ tree. front_in tree ≡ Unfinished (tree_in below)) }
{
    let below = Box::new(alloc, below)?;
    Ok(WindowTree::Node { below })
}

/// A leaf that leads out to a region, where variables have these values.
fn with_exit(
    alloc: Global,
    region: u32,
    tag: u32,
    homes: &HomeList,
) -> Result<WindowTree, AllocError>
    ensures tree { IfOk result (λ tree. tree_in tree ≡ Exit region tag homes.now) }
    ensures front { IfOk result (λ tree. front_in tree ≡ Unfinished (Exit region tag homes.now)) }
{
    let homes = HomeList::from_slice(alloc, homes.as_slice())?;
    Ok(WindowTree::Exit { region, tag, homes })
}

/// A tree again.
fn copied_tree(alloc: Global, tree: &WindowTree) -> Result<WindowTree, AllocError>
    ensures tree { IfOk result (λ copy. tree_in copy ≡ tree_in tree.now) }
    ensures front { IfOk result (λ copy. front_in copy ≡ front_in tree.now) }
{
    match tree {
        WindowTree::Step {
            tag,
            origin,
            item,
            rest,
        } => {
            let rest = copied_tree(alloc, rest)?;
            with_item(alloc, *tag, *origin, *item, rest)
        }
        WindowTree::Test {
            tag,
            origin,
            on,
            yes,
            no,
        } => {
            let yes = copied_tree(alloc, yes)?;
            let no = copied_tree(alloc, no)?;
            with_test(alloc, *tag, *origin, *on, yes, no)
        }
        WindowTree::Node { below } => {
            let below = copied_tree(alloc, below)?;
            with_node(alloc, below)
        }
        WindowTree::Exit { region, tag, homes } => with_exit(alloc, *region, *tag, homes),
        WindowTree::Stop => Ok(WindowTree::Stop),
        WindowTree::Trap { kind, line } => Ok(WindowTree::Trap {
            kind: *kind,
            line: *line,
        }),
    }
}

/// A window again.
pub(crate) fn copied(alloc: Global, window: &Window) -> Result<Window, AllocError>
    ensures { IfOk result (λ copy. window_in copy ≡ window_in window.now) }
{
    let tree = copied_tree(alloc, &window.tree)?;
    let forms = FormList::from_slice(alloc, window.names.forms.as_slice())?;
    let names = NameTable {
        forms,
        next_variable: window.names.next_variable,
    };
    Ok(Window {
        tree,
        names,
        limits: window.limits,
        inside: window.inside,
    })
}
