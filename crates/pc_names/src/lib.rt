//! The names of a program's scalars and arrays, as its source spells them.
#![tactic(auto)]

mod declared;
mod laws;
mod names;

pub use laws::law_of_declarations;
pub use names::{SourceNames, source_names};
use pc_word::Seq;

/// The names of scalars or of arrays, by their numbers.
pub type NameList = Seq<String>;
