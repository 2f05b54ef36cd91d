//! Moving one item of a window upward, into the node above it.
#![tactic(auto)]

mod climbing;
mod error;
mod landing;
mod moving;
mod nodes;
mod refusing;
mod renaming;
mod taking;

pub use climbing::{Climb, climb_in, defines};
pub use error::{MoveError, RoomKind};
pub use moving::{move_op, why_not};
pub use nodes::{leaf_count, node_at, node_size, swap_node};
pub use taking::{leaf_to, leaf_without};
