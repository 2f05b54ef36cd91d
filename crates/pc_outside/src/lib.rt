//! The world outside: sources and sinks of bytes, shelves of files, and what failures leave.
//!
//! Each trait has a meaning of contents, which an implementation may leave untold, and counts of
//! faults. A call answers `Failed` only where a count of its own object rose in that call.
#![tactic(auto)]

mod calls;
mod dir_shelf;
mod error;
mod files;
mod memory_shelf;
mod memory_stream;
mod named_faults;
mod rest;
mod room;
mod shelf;
mod slow_stream;
mod std_stream;
mod stream;
mod sure_shelf;
mod sure_stream;
mod transfer;

pub use dir_shelf::DirShelf;
pub use error::{Failed, OutsideError, ShelfError, TakeError};
pub use memory_shelf::MemoryShelf;
pub use memory_stream::{MemorySink, MemorySource};
use pc_word::Seq;
pub use shelf::Shelf;
pub use slow_stream::{SlowSink, SlowSource};
pub use std_stream::{StdSink, StdSource};
pub use stream::{Sink, Source};
pub use sure_shelf::SureShelf;
pub use sure_stream::{SureSink, SureSource};
pub use transfer::{send, take_all};

/// Numbers of calls, counted from 1.
pub type CallList = Seq<u64>;
