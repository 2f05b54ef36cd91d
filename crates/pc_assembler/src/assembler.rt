//! The top call.
ghost use Rattle.std.specs.Prelude.{◌≡◌, Some};
ghost use Rattle.pc_command.specs.Requests.{assemble_command_of, assemble_request};
ghost use Rattle.pc_command.specs.Words.{spelled};
ghost use Rattle.pc_driver.specs.Streams.{streamed};
ghost use Rattle.pc_assembler.specs.Outside.{surroundings};
ghost use Rattle.pc_assembler.specs.Assembler.{AssemblerEnds, AssemblerPromise};
ghost use Rattle.pc_assembler.specs.models.Steps.{WriteEnds};

use crate::fault::AssemblerFault;
use crate::loading::object_bytes;
use crate::telling::tell;
use pc_command::{AssembleCommand, CommandError, assemble_command};
use pc_outside::{Shelf, ShelfError, Sink};
use std::alloc::Global;

/// The whole assembler, over the outside that is lent, and the status that it ends with. `words` are those of the
/// command line without the assembler's own name: `TEXT -o OBJ`. It reads the listing at TEXT, and writes the
/// object that it stands for to OBJ, which may be the same name. The statuses are
///
/// - 0: the object is written,
/// - 1: memory ran out; nothing was written, or TEXT is a listing, and OBJ may hold anything,
/// - 2: the words are no command,
/// - 3: TEXT could not be read,
/// - 4: TEXT is longer than 4,294,967,296 bytes, or is no listing of an object that loads; nothing was written,
/// - 5: OBJ could not be written, and may hold anything; or the error output failed on the line of another
///   status.
///
/// With each status but 0 one line is sent to the error output, which tells what was due, or a proper
/// prefix of it where that output fails.
pub fn assemble<H: Shelf, E: Sink>(
    alloc: Global,
    words: &[String],
    shelf: &mut H,
    err: &mut E,
) -> u8
    ensures { AssemblerPromise (assemble_command_of (spelled words.now))
        (surroundings (H.state shelf.old) (streamed (E.taken err.old) (E.faults err.old)))
        (surroundings (H.state shelf.new) (streamed (E.taken err.new) (E.faults err.new)))
        result }
{
    let due = run_assembler(alloc, words, shelf);
    tell(alloc, due, err)
}

/// Assembles as the words say, and gives what is due then.
#[tactic(auto, using(crate::proofs::Endings::assembler_endings))]
fn run_assembler<'a, H: Shelf>(
    alloc: Global,
    words: &'a [String],
    shelf: &mut H,
) -> Option<AssemblerFault<'a>>
    ensures { AssemblerEnds (H.state shelf.old) (H.state shelf.new) (assemble_command_of (spelled words.entry.now)) result }
{
    match assemble_command(alloc, words) {
        Ok(command) => assemble_text(alloc, command, shelf),
        Err(CommandError::NoCommand) => Some(AssemblerFault::Usage),
        Err(CommandError::Memory) => Some(AssemblerFault::NoMemory),
    }
}

/// Reads the text and writes its object.
#[tactic(auto, using(crate::proofs::Endings::assembler_endings))]
fn assemble_text<'a, H: Shelf>(
    alloc: Global,
    command: AssembleCommand<'a>,
    shelf: &mut H,
) -> Option<AssemblerFault<'a>>
    ensures { AssemblerEnds (H.state shelf.old) (H.state shelf.new) (Some (assemble_request command.entry)) result }
{
    match object_bytes(alloc, command.text, shelf) {
        Ok(bytes) => write_object(alloc, command.object, bytes.as_slice(), shelf),
        Err(fault) => Some(fault),
    }
}

/// Writes the bytes of an object, and gives what is due then.
#[tactic(auto, using(crate::proofs::Endings::writes_due))]
fn write_object<'a, H: Shelf>(
    alloc: Global,
    name: &'a str,
    bytes: &[u8],
    shelf: &mut H,
) -> Option<AssemblerFault<'a>>
    ensures { WriteEnds name.entry.now bytes.now (H.state shelf.old) (H.state shelf.new) result }
{
    match shelf.write_file(alloc, name, bytes) {
        Ok(()) => None,
        Err(ShelfError::Failed) => Some(AssemblerFault::WriteObject { name }),
        Err(ShelfError::Memory) => Some(AssemblerFault::NoMemory),
    }
}
