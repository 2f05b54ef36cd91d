//! The explainer over the real outside: the words of the command line, the working folder, standard output and
//! standard error.

use crate::explainer::explain;
use pc_driver::{read_words, tell};
use pc_outside::{DirShelf, StdSink};
use pc_pass::Pass;
use pc_report::{Speaker, ToolFault};
use std::process::ExitCode;

/// Runs the explainer with these passes over the flow graph, and gives the status that it ends with.
pub fn run<P: Pass>(rt: &HostRuntime, passes: &mut Vec<P>) -> ExitCode {
    ExitCode::from(status_of(rt, passes))
}

/// Tells that there is no memory for what the explainer begins with, and gives the status for that.
pub fn run_out(rt: &HostRuntime) -> ExitCode {
    ExitCode::from(no_memory(rt))
}

/// What `explain` answers to the words of the command line.
fn status_of<P: Pass>(rt: &HostRuntime, passes: &mut Vec<P>) -> u8 {
    let Ok(words) = read_words(rt) else {
        return no_memory(rt);
    };
    let alloc = rt.alloc();
    let mut shelf = DirShelf::new(alloc, rt, String::new(alloc));
    let mut out = StdSink::new(rt.stdout());
    let mut err = StdSink::new(rt.stderr());
    explain(
        alloc,
        words.as_slice(),
        passes,
        &mut shelf,
        &mut out,
        &mut err,
    )
}

/// Tells that memory ran out.
fn no_memory(rt: &HostRuntime) -> u8 {
    let mut err = StdSink::new(rt.stderr());
    let who = Speaker::Pexplain;
    tell(rt.alloc(), who, Some(ToolFault::NoMemory { who }), &mut err)
}
