//! Filling: what stands behind a window's front and is ready comes into it, as long as there is room.
#![tactic(auto)]

mod bringing;
mod filling;
mod first;
mod jump;
mod known;
mod landing;
mod laws;
mod path;
mod readiness;
mod room;
mod tag_order;
mod taking;
mod twin;
mod walk;

pub use bringing::bring;
pub use filling::{fill, fill_from};
pub use first::{ReadyNode, first_ready};
pub use laws::law_of_opened_windows;
pub use readiness::size_up_to;
