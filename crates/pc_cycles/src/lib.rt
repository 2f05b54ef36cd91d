//! The cycles of a schedule that was told: which states lead round to one another, how many iterations of the loop go by once around,
//! how many rows what stands there needs at least, of what there is too much for fewer, and which items form a chain round it, each of
//! which has to stand in a later row than the one before.
#![tactic(auto)]

mod along;
mod bound;
mod carrier;
mod chain;
mod cycle;
mod frequency;
mod laws;
mod path;
mod recurrence;
mod resource;
mod rows;
mod told_item;
mod transition;
mod walk;

pub use carrier::Carrier;
pub use chain::{Chain, Link};
pub use cycle::Cycle;
pub use laws::law_of_bounds;
use pc_word::Seq;
pub use rows::item_origin;
pub use told_item::ToldItem;
pub use transition::Transition;
pub use walk::cycles;

/// Transitions, in the order in which they are taken.
pub type TransitionList = Seq<Transition>;

/// Links, in the order of the rows.
pub type LinkList = Seq<Link>;

/// Items with what is told of them, in the order in which they stand on a path.
pub(crate) type ToldItemList = Seq<ToldItem>;

/// Cycles, in the order in which a walk closes them.
pub type CycleList = Seq<Cycle>;
