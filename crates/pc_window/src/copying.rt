//! Copies of windows, in memory of their own.
ghost use Rattle.std.specs.Prelude.{◌≡◌, Bool, IfOk};
ghost use Rattle.pc_window.specs.StoredWindow.{tree_in, front_in, window_in, InNodes};

use crate::HomeList;
use crate::tree::WindowTree;
use crate::window::Window;
use std::alloc::{AllocError, Global};

/// A copy of a tree, in a box.
#[cycle(copying)]
fn boxed_copy(alloc: Global, tree: &WindowTree) -> Result<Box<WindowTree>, AllocError>
    ensures tree { IfOk result (λ copy. tree_in copy.value ≡ tree_in tree.now) }
    ensures front { IfOk result (λ copy. front_in copy.value ≡ front_in tree.now) }
    ensures nodes { IfOk result (λ copy. (at_root : Bool) → InNodes at_root tree.now → InNodes at_root copy.value) }
{
    let copy = tree.copy(alloc)?;
    let boxed = Box::new(alloc, copy)?;
    Ok(boxed)
}

impl WindowTree {
    /// An equal tree, in memory of its own. It takes time and memory in proportion to the tree.
    #[cycle(copying)]
    pub fn copy(&self, alloc: Global) -> Result<WindowTree, AllocError>
        ensures tree { IfOk result (λ copy. tree_in copy ≡ tree_in self.now) }
        ensures front { IfOk result (λ copy. front_in copy ≡ front_in self.now) }
        ensures nodes { IfOk result (λ copy. (at_root : Bool) → InNodes at_root self.now → InNodes at_root copy) }
    {
        match self {
            WindowTree::Step {
                tag,
                origin,
                item,
                rest,
            } => {
                let rest = boxed_copy(alloc, rest)?;
                Ok(WindowTree::Step {
                    tag: *tag,
                    origin: *origin,
                    item: *item,
                    rest,
                })
            }
            WindowTree::Test {
                tag,
                origin,
                on,
                yes,
                no,
            } => {
                let yes = boxed_copy(alloc, yes)?;
                let no = boxed_copy(alloc, no)?;
                Ok(WindowTree::Test {
                    tag: *tag,
                    origin: *origin,
                    on: *on,
                    yes,
                    no,
                })
            }
            WindowTree::Node { below } => {
                let below = boxed_copy(alloc, below)?;
                Ok(WindowTree::Node { below })
            }
            WindowTree::Exit { region, tag, homes } => {
                let homes = HomeList::from_slice(alloc, homes.as_slice())?;
                Ok(WindowTree::Exit {
                    region: *region,
                    tag: *tag,
                    homes,
                })
            }
            WindowTree::Stop => Ok(WindowTree::Stop),
            WindowTree::Trap { kind, line } => Ok(WindowTree::Trap {
                kind: *kind,
                line: *line,
            }),
        }
    }
}

impl Window {
    /// An equal window, in memory of its own. It takes time and memory in proportion to the window.
    pub fn copy(&self, alloc: Global) -> Result<Window, AllocError>
        ensures same { IfOk result (λ copy. window_in copy ≡ window_in self.now) }
        ensures names { IfOk result (λ copy. copy.names ≡ self.now.names) }
        ensures tree { IfOk result (λ copy. tree_in copy.tree ≡ tree_in self.now.tree) }
        ensures nodes { IfOk result (λ copy. (at_root : Bool) → InNodes at_root self.now.tree → InNodes at_root copy.tree) }
    {
        let names = self.names.copy(alloc)?;
        let tree = self.tree.copy(alloc)?;
        Ok(Window {
            tree,
            names,
            limits: self.limits,
            inside: self.inside,
        })
    }
}
