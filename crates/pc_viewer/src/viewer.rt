//! The top call.
ghost use Rattle.std.specs.Prelude.{◌≡◌, Some};
ghost use Rattle.pc_command.specs.Requests.{view_command_of, view_request};
ghost use Rattle.pc_command.specs.Words.{spelled};
ghost use Rattle.pc_outside.specs.Shelf.{ReadKeeps};
ghost use Rattle.pc_driver.specs.Streams.{streamed};
ghost use Rattle.pc_viewer.specs.Outside.{surroundings};
ghost use Rattle.pc_viewer.specs.Viewer.{ViewerEnds, ViewerPromise};
ghost use Rattle.pc_viewer.specs.models.Steps.{SendsAll};

use crate::fault::ViewFault;
use crate::loading::text_asked;
use crate::telling::tell;
use pc_command::{CommandError, ViewCommand, view_command};
use pc_outside::{Shelf, Sink, send};
use std::alloc::Global;

/// The whole viewer, over the outside that is lent, and the status that it ends with. `words` are those of the
/// command line without the viewer's own name: `OBJ [--dot]`. It loads the object at OBJ, and sends its listing
/// to the output, or with `--dot` its graph in the language DOT. The statuses are
///
/// - 0: the text is sent,
/// - 1: memory ran out,
/// - 2: the words are no command,
/// - 3: OBJ could not be read,
/// - 4: OBJ is longer than 16,777,216 bytes, or holds no object that loads,
/// - 5: the output failed, and a proper prefix of the text was sent; or the error output failed on the line
///   of another status.
///
/// With each status but 0 one line is sent to the error output, which tells what was due, or a proper
/// prefix of it where that output fails.
pub fn view<H: Shelf, O: Sink, E: Sink>(
    alloc: Global,
    words: &[String],
    shelf: &mut H,
    out: &mut O,
    err: &mut E,
) -> u8
    ensures { ViewerPromise (view_command_of (spelled words.now))
        (surroundings (H.state shelf.old) (streamed (O.taken out.old) (O.faults out.old)) (streamed (E.taken err.old) (E.faults err.old)))
        (surroundings (H.state shelf.new) (streamed (O.taken out.new) (O.faults out.new)) (streamed (E.taken err.new) (E.faults err.new)))
        result }
{
    let due = run_viewer(alloc, words, shelf, out);
    tell(alloc, due, err)
}

/// Views as the words say, and gives what is due then.
#[tactic(auto, using(crate::proofs::Endings::viewer_endings))]
fn run_viewer<'a, H: Shelf, O: Sink>(
    alloc: Global,
    words: &'a [String],
    shelf: &mut H,
    out: &mut O,
) -> Option<ViewFault<'a>>
    ensures ends { ViewerEnds (H.state shelf.old) (H.state shelf.new) (streamed (O.taken out.old) (O.faults out.old))
        (streamed (O.taken out.new) (O.faults out.new)) (view_command_of (spelled words.entry.now)) result }
    ensures shelf { ReadKeeps (H.state shelf.old) (H.state shelf.new) }
{
    match view_command(alloc, words) {
        Ok(command) => view_object(alloc, command, shelf, out),
        Err(CommandError::NoCommand) => Some(ViewFault::Usage),
        Err(CommandError::Memory) => Some(ViewFault::NoMemory),
    }
}

/// Loads the object and sends its text.
#[tactic(auto, using(crate::proofs::Endings::viewer_endings))]
fn view_object<'a, H: Shelf, O: Sink>(
    alloc: Global,
    command: ViewCommand<'a>,
    shelf: &mut H,
    out: &mut O,
) -> Option<ViewFault<'a>>
    ensures ends { ViewerEnds (H.state shelf.old) (H.state shelf.new) (streamed (O.taken out.old) (O.faults out.old))
        (streamed (O.taken out.new) (O.faults out.new)) (Some (view_request command.entry)) result }
    ensures shelf { ReadKeeps (H.state shelf.old) (H.state shelf.new) }
{
    match text_asked(alloc, command, shelf) {
        Ok(text) => send_text(text.as_slice(), out),
        Err(fault) => Some(fault),
    }
}

/// Sends a text, and gives what is due then.
#[tactic(auto, using(crate::proofs::Endings::sends_due))]
fn send_text<'a, O: Sink>(text: &[u8], out: &mut O) -> Option<ViewFault<'a>>
    ensures { SendsAll text.now (streamed (O.taken out.old) (O.faults out.old)) (streamed (O.taken out.new) (O.faults out.new)) result }
{
    match send(out, text) {
        Ok(()) => None,
        Err(_) => Some(ViewFault::WriteOutput),
    }
}
