//! Making one item of two, and deleting what is not used: one item, or all in a window, which tidies
//! it.
#![tactic(auto)]

mod deleting;
mod emptied;
mod joining;
mod marks;
mod tidying;
mod twins;
mod unifying;

pub use deleting::{delete, why_not_delete};
pub use tidying::tidy;
pub use unifying::{unify, why_not_unify};
