//! The top call.
ghost use Rattle.std.specs.Prelude.{◌+◌, MatchResult, Some};
ghost use Rattle.pc_command.specs.Requests.{stat_command_of, stat_request};
ghost use Rattle.pc_command.specs.Words.{spelled};
ghost use Rattle.pc_driver.specs.Outside.{outside_of};
ghost use Rattle.pc_driver.specs.Stops.{StopsAtInput, StopsEarly};
ghost use Rattle.pc_driver.specs.Streams.{streamed};
ghost use Rattle.pc_object.specs.ObjectText.{object_of, IsObject};
ghost use Rattle.pc_outside.specs.Shelf.{ReadKeeps};
ghost use Rattle.pc_outside.specs.Stream.{LosesFront};
ghost use Rattle.pc_profiler.specs.Profiler.{ProfilerEnds, ProfilerPromise};
ghost use Rattle.pc_profiler.specs.models.Profiling.{TellsCost, TellsOn};
ghost use Rattle.pc_word.specs.MachineLimits.{most_input};
ghost use Rattle.pc_word.specs.Ranges.{AreCycles};

use crate::cost::cost_text;
use pc_command::{CommandError, StatCommand, stat_command};
use pc_driver::{Stop, fault_at, load, send_text, take_numbers, tell};
use pc_object::Object;
use pc_outside::{Shelf, Sink, Source};
use pc_report::{Speaker, ToolFault};
use std::alloc::Global;

/// The whole profiler, over the outside that is lent, and the status that it ends with. `words` are those of the
/// command line without the profiler's own name: `OBJ [--cycles N] [--rows | --trace N | --dot | --json]`. It loads
/// the object at OBJ, takes the whole input, runs the object's code for at most so many cycles, and sends what the
/// run cost to the output, in the text that is asked for. What the run prints is not sent, and how it ended is a part
/// of the text. The statuses are
///
/// - 0: the text is sent,
/// - 1: memory ran out,
/// - 2: the words are no command,
/// - 3: OBJ or the input could not be read,
/// - 4: OBJ is longer than 16,777,216 bytes, or holds no object that loads; or the input is longer than that, or a
///   word of it is no number,
/// - 5: the output failed, and a proper prefix of the text was sent; or the error output failed on the line
///   of another status.
///
/// With each status but 0 one line is sent to the error output, which tells what was due, or a proper
/// prefix of it where that output fails. The input is not touched before an object is loaded.
pub fn profile<H: Shelf, I: Source, O: Sink, E: Sink>(
    alloc: Global,
    words: &[String],
    shelf: &mut H,
    input: &mut I,
    out: &mut O,
    err: &mut E,
) -> u8
    ensures { ProfilerPromise (stat_command_of (spelled words.now))
        (outside_of (H.state shelf.old) (streamed (I.left input.old) (I.faults input.old)) (streamed (O.taken out.old) (O.faults out.old)) (streamed (E.taken err.old) (E.faults err.old)))
        (outside_of (H.state shelf.new) (streamed (I.left input.new) (I.faults input.new)) (streamed (O.taken out.new) (O.faults out.new)) (streamed (E.taken err.new) (E.faults err.new)))
        result }
{
    let due = run_profiler(alloc, words, shelf, input, out);
    tell(alloc, Speaker::Pstat, due, err)
}

/// Profiles as the words say, and gives what is due then.
#[tactic(auto, using(crate::proofs::Endings::profiler_endings))]
fn run_profiler<'a, H: Shelf, I: Source, O: Sink>(
    alloc: Global,
    words: &'a [String],
    shelf: &mut H,
    input: &mut I,
    out: &mut O,
) -> Option<ToolFault<'a>>
    ensures ends { ProfilerEnds (H.state shelf.old) (H.state shelf.new) (streamed (I.left input.old) (I.faults input.old))
        (streamed (I.left input.new) (I.faults input.new)) (streamed (O.taken out.old) (O.faults out.old))
        (streamed (O.taken out.new) (O.faults out.new)) (stat_command_of (spelled words.entry.now)) result }
    ensures shelf { ReadKeeps (H.state shelf.old) (H.state shelf.new) }
    ensures lost { LosesFront (I.left input.old) (I.left input.new) (most_input + 1) }
{
    match stat_command(alloc, words) {
        Ok(command) => profile_object(alloc, command, shelf, input, out),
        Err(CommandError::NoCommand) => Some(ToolFault::Usage {
            who: Speaker::Pstat,
        }),
        Err(CommandError::Memory) => Some(ToolFault::NoMemory {
            who: Speaker::Pstat,
        }),
    }
}

/// Runs the object on the input, and sends what the run cost.
#[tactic(auto, using(crate::proofs::Endings::profiler_endings))]
fn profile_object<'a, H: Shelf, I: Source, O: Sink>(
    alloc: Global,
    command: StatCommand<'a>,
    shelf: &mut H,
    input: &mut I,
    out: &mut O,
) -> Option<ToolFault<'a>>
    requires { AreCycles command.cycles }
    ensures ends { ProfilerEnds (H.state shelf.old) (H.state shelf.new) (streamed (I.left input.old) (I.faults input.old))
        (streamed (I.left input.new) (I.faults input.new)) (streamed (O.taken out.old) (O.faults out.old))
        (streamed (O.taken out.new) (O.faults out.new)) (Some (stat_request command.entry)) result }
    ensures shelf { ReadKeeps (H.state shelf.old) (H.state shelf.new) }
    ensures lost { LosesFront (I.left input.old) (I.left input.new) (most_input + 1) }
{
    match text_asked(alloc, command, shelf, input) {
        Ok(text) => send_text(Speaker::Pstat, text.as_slice(), out),
        Err(stop) => Some(fault_at(Speaker::Pstat, stop, command.object)),
    }
}

/// The text that is asked for. An error says why there is none.
fn text_asked<H: Shelf, I: Source>(
    alloc: Global,
    command: StatCommand,
    shelf: &mut H,
    input: &mut I,
) -> Result<Vec<u8>, Stop>
    requires { AreCycles command.cycles }
    ensures text { MatchResult result (λ text. TellsCost (stat_request command.entry) (H.state shelf.old).held (I.left input.old) text.items)
        (λ stop. StopsEarly command.entry.object.now (H.state shelf.old) (H.state shelf.new)
        (streamed (I.left input.old) (I.faults input.old)) (streamed (I.left input.new) (I.faults input.new)) stop) }
    ensures shelf { ReadKeeps (H.state shelf.old) (H.state shelf.new) }
    ensures lost { LosesFront (I.left input.old) (I.left input.new) (most_input + 1) }
{
    let object = load(alloc, command.object, shelf)?;
    text_on(alloc, command, object, input)
}

/// The text that is asked for, of an object and the numbers of the input.
fn text_on<I: Source>(
    alloc: Global,
    command: StatCommand,
    object: Object,
    input: &mut I,
) -> Result<Vec<u8>, Stop>
    requires cycles { AreCycles command.cycles }
    requires object { IsObject (object_of object) }
    ensures text { MatchResult result (λ text. TellsOn (stat_request command.entry) (object_of object) (I.left input.old) text.items)
        (λ stop. StopsAtInput (streamed (I.left input.old) (I.faults input.old)) (streamed (I.left input.new) (I.faults input.new)) stop) }
    ensures lost { LosesFront (I.left input.old) (I.left input.new) (most_input + 1) }
{
    let numbers = take_numbers(alloc, input)?;
    Ok(cost_text(alloc, command, object, numbers)?)
}
