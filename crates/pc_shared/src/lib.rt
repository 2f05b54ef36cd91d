//! Windows whose equal parts are kept once, beside the owned ones: each node lies in an arena and is
//! named by its number, so that several nodes may name one. What they mean is the plain window.
#![tactic(auto)]

mod digest;
mod keeping;
mod merging;
mod node;
mod owning;
mod reading;
mod renaming;
mod store;
mod window;

pub use merging::{Definition, merged};
pub use node::SharedNode;
pub use store::Store;
pub use window::SharedWindow;
