//! The words of the command line.
ghost use Rattle.std.specs.Prelude.{◌≡◌, [], drop};

use std::alloc::{AllocError, Global};
use std::{env, io};

/// The words after the program's own name. Where one of them is no UTF-8 there are none, and no words are
/// no command of any program. An error is want of memory.
///
/// Which words the host gives no clause says, since std tells none of it.
pub fn read_words(rt: &HostRuntime) -> Result<Vec<String>, AllocError> {
    match env::args(rt) {
        Ok(all) => Ok(behind_name(all.collect(rt.alloc())?)),
        Err(error) if error.kind() == io::ErrorKind::OutOfMemory => Err(AllocError),
        Err(_) => Ok(no_words(rt.alloc())),
    }
}

/// The words after the first, which is the program's own name.
fn behind_name(mut words: Vec<String>) -> Vec<String>
    ensures { result.items ≡ drop 1 words.items }
{
    if !words.is_empty() {
        words.remove(0);
    }
    words
}

/// No words. That they are a command of no program is a law of pc_command.
fn no_words(alloc: Global) -> Vec<String>
    ensures { result.items ≡ [] }
{
    Vec::new(alloc)
}
