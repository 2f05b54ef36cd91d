//! One row of a code against the front of a window: whether the row does what the front does, where
//! some facts hold, and which facts hold at each leaf.
#![tactic(auto)]

mod after;
mod carrying;
mod effects;
mod fact;
mod laws;
mod matching;
mod rows;
mod writers;

pub use carrying::some_name;
pub use fact::{Fact, FactList, HeldList};
pub use laws::{
    LeafRelation, examples_of_matching, law_of_claims, law_of_effects, laws_of_facts, laws_of_rows,
};
pub use matching::{operands_match, same_operand};
pub use rows::match_row;
