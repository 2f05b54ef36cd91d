//! Windows whose nodes may be shared.
ghost use Rattle.std.specs.Prelude.{◌<◌, ◌^◌};
ghost use Rattle.pc_shared.specs.NodeTree.{count_places};
ghost use Rattle.pc_shared.specs.Unfolding.{tree_at, Stands};
ghost use Rattle.pc_shared.specs.StandsOnce.{stands_once};

use crate::keeping::kept_tree;
use crate::merging::merged;
use crate::node::SharedNode;
use crate::owning::own_link;
use crate::reading::{count_few, owned_tree, places_at, size_at};
use crate::store::Store;
use pc_arena::NodeId;
use pc_window::{FormList, NameTable, Window};
use pc_word::{Limits, OutOfMemory};
use std::alloc::Global;

/// A window whose equal parts are kept once.
///
/// From its root no way down comes to a node again, and none passes more than `depth` nodes. What
/// it means is the plain window that it unfolds to.
#[derive(Drop)]
pub struct SharedWindow {
    pub store: Store,
    pub root: NodeId,
    pub depth: u32,
    pub names: NameTable,
    pub limits: Limits,
    pub inside: Option<u16>,
    pub ghost stands: { Stands depth store root } by { stands_once _ _ _ },
    pub ghost few: { count_places (tree_at depth store root) < 2 ^ 31 },
}

impl SharedWindow {
    ghost use Rattle.std.specs.Prelude.{◌≡◌, ◌≤◌, ℕ, Some, IsSome, IfSome, Ok, Err, IfOk, IfErr};
    ghost use Rattle.std.specs.FinMap as map;
    ghost use Rattle.pc_arena.specs.Held.{value_at};
    ghost use Rattle.pc_window.specs.Tree.{whole, tree_size};
    ghost use Rattle.pc_window.specs.StoredWindow.{window_in};
    ghost use Rattle.pc_shared.specs.NodeTree.{nodes_in};
    ghost use Rattle.pc_shared.specs.Links.{link_of};
    ghost use Rattle.pc_shared.specs.Unfolding.{Carries};
    ghost use Rattle.pc_shared.specs.Owning.{Owns};
    ghost use Rattle.pc_shared.specs.Places.{places_of};
    ghost use Rattle.pc_shared.specs.SharedWindows.{shared_tree, shared_window, IsNode, IsPlain, Stepped, Answered};
    ghost use Rattle.pc_window.specs.declared.window.Window.{Window as StoredWindow};

    /// The window, with equal nodes kept once. `Err` comes for want of memory alone, for which also
    /// 2^31 places count, and the window is dropped with it.
    pub fn of_window(alloc: Global, window: Window) -> Result<SharedWindow, OutOfMemory>
        ensures tree { IfOk result (λ shared. shared_tree shared ≡ nodes_in window.tree) }
        ensures window { IfOk result (λ shared. shared_window shared ≡ window_in window) }
    {
        let depth = count_few(&window.tree)?;
        let (store, root) = kept_tree(alloc, &window.tree, depth)?;
        let Window {
            tree: _,
            names,
            limits,
            inside,
        } = window;
        Ok(SharedWindow {
            store,
            root,
            depth,
            names,
            limits,
            inside,
        })
    }

    /// The window, with each place a node of its own. `Err` comes for want of memory alone.
    #[tactic(auto, using(crate::proofs::Meaning::meaning))]
    pub fn into_window(self, alloc: Global) -> Result<Window, OutOfMemory>
        ensures tree { IfOk result (λ window. nodes_in window.tree ≡ shared_tree self) }
        ensures window { IfOk result (λ window. window_in window ≡ shared_window self) }
    {
        let tree = owned_tree(alloc, &self.store, self.root, self.depth)?;
        Ok(Window {
            tree,
            names: self.names,
            limits: self.limits,
            inside: self.inside,
        })
    }

    /// The number of items and tests, place by place.
    #[tactic(auto, using(crate::proofs::Meaning::meaning))]
    pub fn size(&self) -> u32
        ensures { result ≡ tree_size (whole (shared_window self.now).front) }
    {
        size_at(&self.store, self.root, self.depth)
    }

    /// At how many places nodes are seen.
    pub fn places(&self) -> u32
        ensures { result ≡ count_places (shared_tree self.now) }
    {
        places_at(&self.store, self.root, self.depth)
    }

    /// How many nodes are kept, also those that are seen no more.
    pub fn kept(&self) -> usize
        ensures { result ≡ map.len self.now.store.nodes.values }
    {
        self.store.nodes.count()
    }

    /// The node at the root.
    pub fn root(&self) -> NodeId
        ensures root { result ≡ self.now.root }
        ensures stands { IsNode self.now result }
    {
        self.root
    }

    /// A node: what it is, and the numbers that it names.
    #[tactic(auto, using(crate::proofs::Standing::standing))]
    pub fn shape(&self, node: NodeId) -> SharedNode
        requires { IsNode self.now node }
        ensures { value_at self.now.store.nodes node ≡ Some result }
    {
        *self.store.nodes.get(node)
    }

    /// What a node names on a side. Only a test tells its sides apart.
    #[tactic(auto, using(crate::proofs::Standing::standing))]
    pub fn child(&self, node: NodeId, side: bool) -> Option<NodeId>
        requires { IsNode self.now node }
        ensures link { result ≡ link_of (value_at self.now.store.nodes node) side }
        ensures stands { IfSome result (λ below. IsNode self.now below) }
    {
        self.shape(node).link(side)
    }

    /// Copies what a node names on a side, for this node alone; gives the copy, which the node names
    /// then and which is seen where the node is, and nowhere else. The window is the same, and so is
    /// what each node unfolds to, also on `Err`. The child stays in the arena, even if no other node
    /// names it.
    #[tactic(auto, using(crate::proofs::Standing::standing))]
    pub fn own(&mut self, node: NodeId, side: bool) -> Result<NodeId, OutOfMemory>
        requires stands { IsNode self.old node }
        requires linked { IsSome (link_of (value_at self.old.store.nodes node) side) }
        ensures owns { IfOk result (λ copy. (child : ℕ) → link_of (value_at self.old.store.nodes node) side ≡ Some child
            → Owns self.old.store self.new.store node side child copy) }
        ensures alone { IfOk result (λ copy. (most id : ℕ) → Stands most self.old.store id
            → places_of most self.new.store copy id ≡ places_of most self.old.store node id) }
        ensures tree { shared_tree self.new ≡ shared_tree self.old }
        ensures window { shared_window self.new ≡ shared_window self.old }
        ensures nodes { (most id : ℕ) → Carries self.old.store most id self.new.store most id }
    {
        let copy = own_link(&mut self.store, node, side, self.depth)?;
        Ok(copy)
    }

    /// A copy of the window, with each place a node of its own. `Err` comes for want of memory alone.
    pub fn to_window(&self, alloc: Global) -> Result<Window, OutOfMemory>
        ensures { IfOk result (λ window. IsPlain self.now window) }
    {
        let forms = FormList::from_slice(alloc, self.names.forms.as_slice())?;
        let tree = owned_tree(alloc, &self.store, self.root, self.depth)?;
        let names = NameTable {
            forms,
            next_variable: self.names.next_variable,
        };
        Ok(Window {
            tree,
            names,
            limits: self.limits,
            inside: self.inside,
        })
    }

    /// The window after a step, which is a call on plain windows: opening and cutting apart, each of them
    /// can pass through here. The step is given the plain window; of what it gives, definitions that are alike
    /// get one name, and equal nodes are kept once. This window stays as it is. What the step answers
    /// in place of a window is handed on.
    #[tactic(auto, using(crate::proofs::PlainWindows::single))]
    pub fn step<E, F: FnOnce(Window) -> Result<Window, E>>(
        &self,
        alloc: Global,
        step: F,
    ) -> Result<Result<SharedWindow, E>, OutOfMemory>
        requires { (window : StoredWindow) → IsPlain self.now window → F.pre step window }
        ensures stepped { IfOk result (λ answer. IfOk answer (λ later. Stepped (λ before after. F.post step before (Ok after)) self.now later)) }
        ensures refused { IfOk result (λ answer. IfErr answer (λ why. Answered (λ before. F.post step before (Err why)) self.now)) }
    {
        let window = self.to_window(alloc)?;
        let later = match step(window) {
            Ok(later) => later,
            Err(why) => return Ok(Err(why)),
        };
        let merged = merged(alloc, later)?;
        let shared = SharedWindow::of_window(alloc, merged)?;
        Ok(Ok(shared))
    }
}
