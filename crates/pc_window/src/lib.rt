//! Windows: trees of items and tests that were opened from regions, and how they are unwound,
//! tidied, rebased, filled and cut, with what each of these steps keeps.
#![tactic(auto)]

mod bring;
mod conflict;
mod copying;
mod error;
mod front_rows;
mod grafting;
mod home;
mod laws;
mod listed_names;
mod listing;
mod names;
mod nodes;
mod tags;
mod tree;
mod window;

pub use conflict::Touch;
pub use error::WindowError;
pub use grafting::{VARIABLES, graft};
pub use home::{Home, homes_use, map_homes};
pub use laws::{
    laws_of_cutting, laws_of_filling, laws_of_moves, laws_of_opening, laws_of_settling,
    laws_of_tables,
};
pub use listed_names::is_in;
pub use listing::{all_names, parameters_of};
pub use names::NameTable;
pub use nodes::{in_node, is_leaf};
use pc_linear::LinForm;
use pc_word::Seq;
pub use tags::lesser_tag;
pub use tree::WindowTree;
pub use window::Window;

/// Numbers of names or of form variables.
pub type NumberList = Seq<u32>;

/// Homes of variables.
pub type HomeList = Seq<Home>;

/// Forms, by name.
pub type FormList = Seq<LinForm>;
