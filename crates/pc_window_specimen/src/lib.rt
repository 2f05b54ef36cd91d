//! What tests of regions and windows are made of: tables of regions, told part by part, and their windows.
#![tactic(auto)]

mod checking;
mod handmade;
mod items;
mod naming;
mod sizes;
mod tables;
mod texts;
mod untold;
mod windows;

pub use handmade::{bare, told_window};
pub use items::{bin, load, print, store};
pub use sizes::{may_be_filled, may_be_unwound, size};
pub use tables::{PLAIN, Part, ToldRegion, ToldTable, table};
pub use texts::{front_text, tree_text};
pub use untold::Untold;
pub use windows::{first_rest, first_window, opened, unwound};
