//! Where nodes and homes lie.
use crate::node::SharedNode;
use pc_arena::Arena;
use pc_window::HomeList;

/// The nodes of a window by their numbers, and the homes of its stubs by numbers of their own.
#[derive(Drop)]
pub struct Store {
    pub nodes: Arena<SharedNode>,
    pub homes: Arena<HomeList>,
}
