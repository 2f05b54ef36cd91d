//! Registers chosen anew over the rows of a code, which is tightened then.
#![tactic(auto)]

mod branches;
mod chains;
mod choice;
mod exits;
mod loops;
mod naming;
mod pace;
mod painting;
mod phases;
mod recoloring;
mod size;
mod webs;

pub use recoloring::{Verdict, judge, recolor_and_tighten};
