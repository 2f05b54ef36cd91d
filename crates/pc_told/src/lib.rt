//! What a search tells of the schedule that it finds: of which iteration of the loop each item and test of a row is, and of which
//! node of the flow graph; how many iterations each leaf goes on; what waits there, and why; and how many rows an iteration takes at
//! least.
#![tactic(auto)]

mod advance;
mod fronts;
mod laws;
mod resources;
mod teller;
mod telling;
mod told_row;

pub use laws::{law_of_iterations, law_of_resources};
use pc_waiting::WaitingList;
use pc_word::Seq;
pub use resources::resource_bound;
pub use teller::Teller;
pub use telling::{Told, tell};
pub use told_row::ToldRow;

/// Told rows, in the order of the states whose rows they are.
pub type ToldRowList = Seq<ToldRow>;

/// What waits, in the order of the states behind whose rows it stands.
pub type WaitingLists = Seq<WaitingList>;
