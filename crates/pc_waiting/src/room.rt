//! How much more a front has room for.
ghost use Rattle.std.specs.Prelude.{◌≡◌};
ghost use Rattle.pc_window.specs.StoredWindow.{front_in};
ghost use Rattle.pc_waiting.specs.Waiting.{room_beside, no_room, lacking};
ghost use Rattle.pc_waiting.specs.models.Path.{beside_item, beside_test};

use crate::obstacle::{Obstacle, Resource};
use pc_window::WindowTree;
use pc_word::{Item, Limits};

/// How many more items, tests, and loads and stores a front has room for.
#[derive(Clone, Copy, Debug)]
pub(crate) struct Room {
    pub(crate) items: u8,
    pub(crate) tests: u8,
    pub(crate) memory: u8,
}

impl Room {
    /// The room of an empty front.
    pub(crate) fn of_limits(limits: Limits) -> Room
        ensures { result ≡ record { items = limits.ops; tests = limits.tests; memory = limits.mem } }
    {
        Room {
            items: limits.ops,
            tests: limits.tests,
            memory: limits.mem,
        }
    }

    /// What is left of it beside one item.
    fn beside_item(self, item: Item) -> Room
        ensures { result ≡ beside_item self item }
    {
        let touches = if item.is_memory() { 1 } else { 0 };
        Room {
            items: self.items.saturating_sub(1),
            tests: self.tests,
            memory: self.memory.saturating_sub(touches),
        }
    }

    /// What is left of it beside one test.
    fn beside_test(self) -> Room
        ensures { result ≡ beside_test self }
    {
        Room {
            items: self.items,
            tests: self.tests.saturating_sub(1),
            memory: self.memory,
        }
    }

    /// What is left of it beside a front.
    #[tactic(auto, using(crate::proofs::Rooms::counting))]
    pub(crate) fn beside(self, tree: &WindowTree) -> Room
        ensures { result ≡ room_beside self (front_in tree.now) }
    {
        match tree {
            WindowTree::Step { item, rest, .. } => self.beside_item(*item).beside(rest),
            WindowTree::Test { yes, no, .. } => self.beside_test().beside(yes).beside(no),
            WindowTree::Node { .. } => self,
            WindowTree::Exit { .. } => self,
            WindowTree::Stop => self,
            WindowTree::Trap { .. } => self,
        }
    }

    /// What it lacks for one more item, or test.
    pub(crate) fn lacking(self, what: Option<Item>) -> Option<Obstacle>
        ensures { result ≡ lacking self what }
    {
        let Some(item) = what else {
            return no_room(self.tests, Resource::Tests);
        };
        if let Some(obstacle) = no_room(self.items, Resource::Items) {
            return Some(obstacle);
        }
        if !item.is_memory() {
            return None;
        }
        no_room(self.memory, Resource::Memory)
    }
}

/// An obstacle where nothing is left of a resource.
fn no_room(left: u8, resource: Resource) -> Option<Obstacle>
    ensures { result ≡ no_room left resource }
{
    if left == 0 {
        return Some(Obstacle::NoRoom { resource });
    }
    None
}
