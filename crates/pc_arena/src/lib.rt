//! Values under numbers that the arena picks, each of which is kept until it is taken.
#![tactic(auto)]

mod arena;

pub use arena::{Arena, NodeId};
