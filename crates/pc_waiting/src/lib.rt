//! Why what stands behind a window's front waits: for each item and test there the first reason why it may not come into the front.
#![tactic(auto)]

mod laws;
mod obstacle;
mod path;
mod room;
mod walk;

pub use laws::{law_of_counted_iterations, law_of_one_answer, laws_of_waiting};
pub use obstacle::{Obstacle, Resource, Waiting};
use pc_word::Seq;
pub use walk::what_waits;

/// What waits, in preorder.
pub type WaitingList = Seq<Waiting>;
