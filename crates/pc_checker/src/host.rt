//! The checker over the real outside: the words of the command line, the working folder and standard error.

use crate::checker::check_tool;
use crate::fault::CheckerFault;
use crate::telling::tell_fault;
use crate::verdict::Verdict;
use pc_driver::read_words;
use pc_outside::{DirShelf, StdSink};
use pc_pass::Pass;
use std::process::ExitCode;

/// Runs the checker with these passes over the flow graph, and gives the status that it ends with.
pub fn run<P: Pass>(rt: &HostRuntime, passes: &mut Vec<P>) -> ExitCode {
    ExitCode::from(verdict_of(rt, passes).code)
}

/// Tells that there is no memory for what the checker begins with, and gives the status for that.
pub fn run_out(rt: &HostRuntime) -> ExitCode {
    ExitCode::from(no_memory(rt).code)
}

/// What `check_tool` answers to the words of the command line.
fn verdict_of<P: Pass>(rt: &HostRuntime, passes: &mut Vec<P>) -> Verdict {
    let Ok(words) = read_words(rt) else {
        return no_memory(rt);
    };
    let alloc = rt.alloc();
    let mut shelf = DirShelf::new(alloc, rt, String::new(alloc));
    let mut err = StdSink::new(rt.stderr());
    check_tool(alloc, words.as_slice(), passes, &mut shelf, &mut err)
}

/// Tells that memory ran out.
fn no_memory(rt: &HostRuntime) -> Verdict {
    let mut err = StdSink::new(rt.stderr());
    Verdict {
        code: tell_fault(rt.alloc(), CheckerFault::NoMemory, &mut err),
        cut: None,
    }
}
