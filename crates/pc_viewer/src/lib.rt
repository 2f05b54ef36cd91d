//! The top call of the viewer, which writes an object as text.
#![tactic(auto)]

mod fault;
mod host;
mod laws;
mod loading;
mod telling;
mod viewer;

pub use fault::ViewFault;
pub use host::run;
pub use laws::laws_of_the_viewer;
pub use viewer::view;
