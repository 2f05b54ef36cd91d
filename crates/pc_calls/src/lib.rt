//! What a translation unit with functions does, and its inlined program, which does the same.
//!
//! Everything here is a definition in `specs/`, over the units without pointers of `pc_syntax`.
#![tactic(auto)]

mod laws;

pub use laws::law_of_inlining;
