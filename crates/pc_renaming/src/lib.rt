//! Codes that do other codes with other registers: what that means, that such a code shows what the other one
//! shows, and a checker of it that trusts nobody who made one.
#![tactic(auto)]

mod checking;
mod homes;
mod kept;
mod laws;
mod path;
mod witness;

pub use checking::{is_renaming, only_gives};
pub use kept::Kept;
pub use laws::laws_of_renaming;
pub use witness::{Holding, RowWitness};
