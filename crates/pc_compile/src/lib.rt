//! From a checked program to its object: the flow graph, passes over it, its regions, a form for each of them
//! that is reachable, their rows, and notes on loops. A region gets the first form that is not refused; the regions
//! that are reachable from region 0 are taken in the order in which they are found. The schedule of regions in their
//! forms: its run, what it may cost in cycles, and that emitted code keeps pace with it, and tightened code too.
#![tactic(auto)]

mod bytes;
mod choice;
mod choose_error;
mod choosing;
mod error;
mod found;
mod giving;
mod heading;
mod laws;
mod leading;
mod notes;
mod program;
mod registers;
mod trying;

pub use choice::{Cause, Choice, Chosen, Form};
pub use choose_error::ChooseError;
pub use choosing::choose;
pub use error::CompileError;
pub use laws::{law_of_choices, law_of_chosen_forms, laws_of_pace};
use pc_emit::RegionForm;
use pc_word::Seq;
pub use program::{Compiled, compile};

/// Why a region did not get the forms before its own, in their order.
pub type CauseList = Seq<Cause>;

/// What was chosen for regions, in the order in which they were taken.
pub type ChoiceList = Seq<Choice>;

/// The form of each region of a table that has one, by number.
pub type FormList = Seq<Option<RegionForm>>;
