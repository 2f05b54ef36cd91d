//! Which names of the states of a schedule hold which scalars of the source.
#![tactic(auto)]

mod assigned;
mod entering;
mod holding;
mod laws;
mod states;

pub use holding::{Holding, scalar_of};
pub use laws::law_of_holdings;
use pc_word::Seq;
pub use states::variables;

/// The names of a state that hold scalars.
pub type HoldingList = Seq<Holding>;

/// The names that hold scalars, by states.
pub type VariableList = Seq<HoldingList>;
