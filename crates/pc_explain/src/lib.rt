//! What the compiler found for each innermost loop, explained: the form that it got and what decided it, and the schedule, state by
//! state, with the iteration of each item and test and the line of the source that it comes from, what waits and why, and the cycles of
//! states with their bounds. The parts of a row in words stand here too, for all who write explanations.
#![tactic(auto)]

mod counts;
mod explaining;
mod explanation;
mod heading;
mod laws;
mod leaves;
mod legend;
mod links;
mod naming;
mod searching;
mod waits;
mod words;

pub use explaining::explain_loops;
pub use explanation::{LoopExplanation, Schedule, StateView};
pub use heading::push_heading;
pub use laws::law_of_explained_loops;
pub use leaves::push_leaf;
pub use legend::Legend;
pub use links::link_line;
pub use naming::StateNaming;
use pc_word::Seq;
pub use waits::{KindWords, ObstacleWords, resource_words};
pub use words::{HomeWords, ItemWords, OperandWords, PlaceWords, place, push_no_loop_words, shown};

/// Explanations of loops, in the order in which the compiler took their regions.
pub type LoopExplanationList = Seq<LoopExplanation>;
