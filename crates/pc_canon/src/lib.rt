//! Keys of windows: two windows have one key exactly where they are equal up to names, form variables
//! and a shift of all tags.
#![tactic(auto)]

mod columns;
mod forms;
mod laws;
mod levels;
mod number_bytes;
mod tags;
mod window_key;
mod writing;

pub use laws::{laws_of_canonical_forms, laws_of_keys, laws_of_shifts};
pub use window_key::{WindowKey, key, same_up_to_shift};
