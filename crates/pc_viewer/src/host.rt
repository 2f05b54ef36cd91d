//! The viewer over the real outside: the words of the command line, the working folder, standard output and
//! standard error.

use crate::fault::ViewFault;
use crate::telling::tell;
use crate::viewer::view;
use pc_driver::read_words;
use pc_outside::{DirShelf, StdSink};
use std::process::ExitCode;

/// Runs the viewer, and gives the status that it ends with.
pub fn run(rt: &HostRuntime) -> ExitCode {
    ExitCode::from(status_of(rt))
}

/// What `view` answers to the words of the command line.
fn status_of(rt: &HostRuntime) -> u8 {
    let alloc = rt.alloc();
    let mut err = StdSink::new(rt.stderr());
    let Ok(words) = read_words(rt) else {
        return tell(alloc, Some(ViewFault::NoMemory), &mut err);
    };
    let mut shelf = DirShelf::new(alloc, rt, String::new(alloc));
    let mut out = StdSink::new(rt.stdout());
    view(alloc, words.as_slice(), &mut shelf, &mut out, &mut err)
}
