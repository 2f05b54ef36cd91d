//! The object in a file, and the numbers of an input.
ghost use Rattle.std.specs.Prelude.{◌+◌, MatchResult};
ghost use Rattle.pc_object.specs.ObjectText.{object_of};
ghost use Rattle.pc_outside.specs.Shelf.{ReadKeeps};
ghost use Rattle.pc_outside.specs.Stream.{LosesFront};
ghost use Rattle.pc_driver.specs.Input.{SpellsInput};
ghost use Rattle.pc_driver.specs.Objects.{Holds};
ghost use Rattle.pc_driver.specs.Stops.{StopsAtInput, StopsAtObject};
ghost use Rattle.pc_driver.specs.Streams.{streamed};
ghost use Rattle.pc_word.specs.MachineLimits.{most_input};

use crate::file::read_whole;
use crate::stop::Stop;
use pc_object::{Object, decode};
use pc_outside::{Shelf, Source, take_all};
use pc_report::InputFault;
use pc_word::{MOST_INPUT, MOST_OBJECT, WordList, read_numbers};
use std::alloc::Global;

/// The object of a file of at most 16,777,216 bytes. It stops where the file could not be read, is longer, or holds
/// no object that loads, and where memory runs out.
pub fn load<H: Shelf>(alloc: Global, name: &str, shelf: &mut H) -> Result<Object, Stop>
    ensures object { MatchResult result (λ object. Holds (H.state shelf.old).held name.now (object_of object))
        (λ stop. StopsAtObject name.now (H.state shelf.old) (H.state shelf.new) stop) }
    ensures shelf { ReadKeeps (H.state shelf.old) (H.state shelf.new) }
{
    let bytes = read_whole(alloc, name, MOST_OBJECT, shelf)?;
    Ok(decode(alloc, bytes.as_slice())?)
}

/// The numbers of the input, of which it takes at most one byte more than the 16,777,216 that it may have. It stops
/// where the input could not be read, is longer, or has a word that is no number, and where memory runs out.
pub fn take_numbers<I: Source>(alloc: Global, input: &mut I) -> Result<WordList, Stop>
    ensures numbers { MatchResult result (λ numbers. SpellsInput (I.left input.old) numbers)
        (λ stop. StopsAtInput (streamed (I.left input.old) (I.faults input.old)) (streamed (I.left input.new) (I.faults input.new)) stop) }
    ensures lost { LosesFront (I.left input.old) (I.left input.new) (most_input + 1) }
{
    let bytes = take_all(alloc, input, MOST_INPUT + 1)?;
    if bytes.len() > MOST_INPUT {
        return Err(Stop::Input {
            fault: InputFault::TooLong,
        });
    }
    Ok(read_numbers(alloc, bytes.as_slice())?)
}
