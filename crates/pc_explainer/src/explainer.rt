//! The top call.
ghost use Rattle.std.specs.Prelude.{◌≡◌, map, IfNone, Some};
ghost use Rattle.pc_command.specs.Requests.{explain_command_of, explain_request};
ghost use Rattle.pc_command.specs.Words.{spelled};
ghost use Rattle.pc_driver.specs.Streams.{streamed};
ghost use Rattle.pc_outside.specs.Shelf.{ReadKeeps};
ghost use Rattle.pc_pass.specs.Pass.{Chain, EachRose};
ghost use Rattle.pc_explainer.specs.Explainer.{ExplainerEnds, ExplainerPromise};
ghost use Rattle.pc_explainer.specs.Outside.{surroundings};
ghost use Rattle.pc_word.specs.Ranges.{AreLimits, IsExtent};

use crate::source::explanation_of_source;
use pc_command::{CommandError, ExplainCommand, explain_command};
use pc_driver::{send_text, tell};
use pc_outside::{Shelf, Sink};
use pc_pass::Pass;
use pc_report::{Speaker, ToolFault};
use std::alloc::Global;

/// The whole explainer, over the outside that is lent, and the status that it ends with. `words` are those of the
/// command line without the explainer's own name:
/// `SRC [--ops N] [--tests N] [--mem N] [--window N] [--rows N] [--loop LINE] [--dot | --json]`; `passes` are applied to the
/// flow graph of the source's program, once each and in order.
///
/// It reads the source at SRC, or makes the sample of a SRC such as `@7`, and compiles it as the compiler does with the
/// same words, but writes nothing. Then it sends to the output what the compiler found for each innermost loop, or for
/// those whose keyword stands at LINE alone: the form that it got and what decided it, and the rows of its schedule; as
/// lines, with `--dot` as a graph, with `--json` for other programs. The statuses are
///
/// - 0: the text is sent, which is one line where there is no such loop,
/// - 1: memory ran out; nothing was sent, or the front of the text,
/// - 2: the words are no command,
/// - 3: SRC could not be read,
/// - 4: SRC is refused, as by the compiler,
/// - 5: the output failed, and a proper prefix of the text was sent; or the error output failed on the line
///   of another status.
///
/// With each status but 0 one line is sent to the error output, which tells what was due, or a proper prefix of it where
/// that output fails.
pub fn explain<P: Pass, H: Shelf, O: Sink, E: Sink>(
    alloc: Global,
    words: &[String],
    passes: &mut Vec<P>,
    shelf: &mut H,
    out: &mut O,
    err: &mut E,
) -> u8
    ensures promise { ExplainerPromise (explain_command_of (spelled words.now)) (Chain P.does P.changed passes.old.items passes.new.items)
        (surroundings (H.state shelf.old) (streamed (O.taken out.old) (O.faults out.old)) (streamed (E.taken err.old) (E.faults err.old)))
        (surroundings (H.state shelf.new) (streamed (O.taken out.new) (O.faults out.new)) (streamed (E.taken err.new) (E.faults err.new)))
        result }
    ensures named { map P.label passes.new.items ≡ map P.label passes.old.items }
    ensures ran { result ≡ 0 → EachRose (map P.runs passes.old.items) (map P.runs passes.new.items) }
{
    let due = run_explainer(alloc, words, passes, shelf, out);
    tell(alloc, Speaker::Pexplain, due, err)
}

/// Explains as the words say, and gives what is due then.
#[tactic(auto, using(crate::proofs::Endings::explainer_endings))]
fn run_explainer<'a, P: Pass, H: Shelf, O: Sink>(
    alloc: Global,
    words: &'a [String],
    passes: &mut Vec<P>,
    shelf: &mut H,
    out: &mut O,
) -> Option<ToolFault<'a>>
    ensures ends { ExplainerEnds (Chain P.does P.changed passes.old.items passes.new.items) (H.state shelf.old) (H.state shelf.new)
        (streamed (O.taken out.old) (O.faults out.old)) (streamed (O.taken out.new) (O.faults out.new)) (explain_command_of (spelled words.entry.now)) result }
    ensures shelf { ReadKeeps (H.state shelf.old) (H.state shelf.new) }
    ensures named { map P.label passes.new.items ≡ map P.label passes.old.items }
    ensures ran { IfNone result (EachRose (map P.runs passes.old.items) (map P.runs passes.new.items)) }
{
    match explain_command(alloc, words) {
        Ok(command) => explain_source(alloc, command, passes, shelf, out),
        Err(CommandError::NoCommand) => Some(ToolFault::Usage {
            who: Speaker::Pexplain,
        }),
        Err(CommandError::Memory) => Some(ToolFault::NoMemory {
            who: Speaker::Pexplain,
        }),
    }
}

/// Sends what explains the source that the command names.
#[tactic(auto, using(crate::proofs::Endings::explainer_endings))]
fn explain_source<'a, P: Pass, H: Shelf, O: Sink>(
    alloc: Global,
    command: ExplainCommand<'a>,
    passes: &mut Vec<P>,
    shelf: &mut H,
    out: &mut O,
) -> Option<ToolFault<'a>>
    requires limits { AreLimits command.limits }
    requires extent { IsExtent command.extent }
    ensures ends { ExplainerEnds (Chain P.does P.changed passes.old.items passes.new.items) (H.state shelf.old) (H.state shelf.new)
        (streamed (O.taken out.old) (O.faults out.old)) (streamed (O.taken out.new) (O.faults out.new)) (Some (explain_request command.entry)) result }
    ensures shelf { ReadKeeps (H.state shelf.old) (H.state shelf.new) }
    ensures named { map P.label passes.new.items ≡ map P.label passes.old.items }
    ensures ran { IfNone result (EachRose (map P.runs passes.old.items) (map P.runs passes.new.items)) }
{
    match explanation_of_source(alloc, command, passes, shelf) {
        Ok(text) => send_text(Speaker::Pexplain, text.as_slice(), out),
        Err(fault) => Some(fault),
    }
}
