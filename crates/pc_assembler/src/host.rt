//! The assembler over the real outside: the words of the command line, the working folder and standard error.

use crate::assembler::assemble;
use crate::fault::AssemblerFault;
use crate::telling::tell;
use pc_driver::read_words;
use pc_outside::{DirShelf, StdSink};
use std::process::ExitCode;

/// Runs the assembler, and gives the status that it ends with.
pub fn run(rt: &HostRuntime) -> ExitCode {
    ExitCode::from(status_of(rt))
}

/// What `assemble` answers to the words of the command line.
fn status_of(rt: &HostRuntime) -> u8 {
    let alloc = rt.alloc();
    let mut err = StdSink::new(rt.stderr());
    let Ok(words) = read_words(rt) else {
        return tell(alloc, Some(AssemblerFault::NoMemory), &mut err);
    };
    let mut shelf = DirShelf::new(alloc, rt, String::new(alloc));
    assemble(alloc, words.as_slice(), &mut shelf, &mut err)
}
