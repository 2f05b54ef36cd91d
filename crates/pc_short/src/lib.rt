//! Short lists: growable lists whose first elements need no memory of their own.
#![tactic(auto)]

mod short_seq;

pub use short_seq::ShortSeq;
