//! A program over the real outside: the words of the command line, the working folder, standard input,
//! standard output and standard error.

use crate::program::{Who, tool};
use crate::status::Status;
use pc_driver::{read_words, tell};
use pc_outside::{DirShelf, StdSink, StdSource};
use pc_pass::Pass;
use pc_report::{Speaker, ToolFault};
use std::process::ExitCode;

/// Runs a program with these passes over the flow graph, and gives the status that it ends with.
pub fn run<P: Pass>(rt: &HostRuntime, who: Who, passes: &mut Vec<P>) -> ExitCode {
    ExitCode::from(status_of(rt, who, passes).code)
}

/// Tells that there is no memory for what a program begins with, and gives the status for that.
pub fn run_out(rt: &HostRuntime, who: Who) -> ExitCode {
    ExitCode::from(no_memory(rt, who).code)
}

/// What `tool` answers to the words of the command line.
fn status_of<P: Pass>(rt: &HostRuntime, who: Who, passes: &mut Vec<P>) -> Status {
    let Ok(words) = read_words(rt) else {
        return no_memory(rt, who);
    };
    let alloc = rt.alloc();
    let mut shelf = DirShelf::new(alloc, rt, String::new(alloc));
    let mut input = StdSource::new(rt.stdin());
    let mut out = StdSink::new(rt.stdout());
    let mut err = StdSink::new(rt.stderr());
    tool(
        alloc,
        who,
        words.as_slice(),
        passes,
        &mut shelf,
        &mut input,
        &mut out,
        &mut err,
    )
}

/// Tells that memory ran out.
fn no_memory(rt: &HostRuntime, who: Who) -> Status {
    let mut err = StdSink::new(rt.stderr());
    let who = match who {
        Who::Pcc => Speaker::Pcc,
        Who::Pvm => Speaker::Pvm,
    };
    Status {
        code: tell(rt.alloc(), who, Some(ToolFault::NoMemory { who }), &mut err),
        compiled: None,
    }
}
