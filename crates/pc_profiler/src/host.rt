//! The profiler over the real outside: the words of the command line, the working folder, and the standard streams.

use crate::profiler::profile;
use pc_driver::{read_words, tell};
use pc_outside::{DirShelf, StdSink, StdSource};
use pc_report::{Speaker, ToolFault};
use std::process::ExitCode;

/// Runs the profiler, and gives the status that it ends with.
pub fn run(rt: &HostRuntime) -> ExitCode {
    ExitCode::from(status_of(rt))
}

/// What `profile` answers to the words of the command line.
fn status_of(rt: &HostRuntime) -> u8 {
    let alloc = rt.alloc();
    let mut err = StdSink::new(rt.stderr());
    let Ok(words) = read_words(rt) else {
        let who = Speaker::Pstat;
        return tell(alloc, who, Some(ToolFault::NoMemory { who }), &mut err);
    };
    let mut shelf = DirShelf::new(alloc, rt, String::new(alloc));
    let mut input = StdSource::new(rt.stdin());
    let mut out = StdSink::new(rt.stdout());
    profile(
        alloc,
        words.as_slice(),
        &mut shelf,
        &mut input,
        &mut out,
        &mut err,
    )
}
