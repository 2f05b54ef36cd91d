//! The top call.
ghost use Rattle.std.specs.Prelude.{◌≡◌, ◌⊎◌, ◌↔◌, map, IsSome, MatchResult, None, OnOk, Some};
ghost use Rattle.pc_command.specs.Requests.{check_command_of, check_request};
ghost use Rattle.pc_command.specs.Words.{spelled};
ghost use Rattle.pc_driver.specs.Streams.{streamed};
ghost use Rattle.pc_pass.specs.Pass.{Chain, EachRose};
ghost use Rattle.pc_table.specs.StoredTable.{table_of};
ghost use Rattle.pc_checker.specs.Checker.{CheckerEnds, CheckerPromise};
ghost use Rattle.pc_checker.specs.Outside.{surroundings};
ghost use Rattle.pc_checker.specs.Told.{Failure};
ghost use Rattle.pc_checker.specs.models.Steps.{ObjectEnds, due_of};

use crate::answer::Answer;
use crate::fault::CheckerFault;
use crate::object::check_object;
use crate::source::cut_source;
use crate::telling::{tell_answer, tell_fault};
use crate::verdict::Verdict;
use pc_command::{CheckCommand, CommandError, check_command};
use pc_middle::CutProgram;
use pc_outside::{Shelf, Sink};
use pc_pass::Pass;
use std::alloc::Global;

/// The whole checker, over the outside that is lent, and how it ends. `words` are those of the command line
/// without the checker's own name: `SRC OBJ CERT [--make] [--why]`; `passes` are applied to the flow graph of the
/// source's program, once each and in order.
///
/// It reads the source at SRC, or makes the sample of a SRC such as `@7`, and makes the regions of its flow graph. Then
/// it loads the object at OBJ, reads the certificate at CERT, or with `--make` makes one, and says whether the certificate
/// shows that the object does what the source means, whoever made the object and the certificate. With `--make` it writes
/// an accepted certificate to CERT, which may be one of the other names. The statuses are
///
/// - 0: the certificate is accepted, so for every input the object does what the source means; with `--make` it is
///   written,
/// - 1: memory ran out; nothing was written, or with `--make` a certificate was accepted, and CERT may hold anything,
/// - 2: the words are no command,
/// - 3: SRC, OBJ or, without `--make`, CERT could not be read,
/// - 4: SRC is refused, as by the compiler; OBJ is refused, as by the simulator; or, without `--make`, CERT is longer than
///   16,777,216 bytes or holds no certificate,
/// - 5: an accepted certificate could not be written, and CERT may hold anything; or the error output failed on the
///   text of another status,
/// - 8: the certificate is rejected; nothing was written.
///
/// With each status but 0 a text is sent to the error output, which tells what was due, or a proper prefix of it where
/// that output fails. It is one line, but with `--why` a rejection is told with its reason and with the listing of the row.
pub fn check_tool<P: Pass, H: Shelf, E: Sink>(
    alloc: Global,
    words: &[String],
    passes: &mut Vec<P>,
    shelf: &mut H,
    err: &mut E,
) -> Verdict
    ensures promise { CheckerPromise (check_command_of (spelled words.now)) (Chain P.does P.changed passes.old.items passes.new.items) result.cut
        (surroundings (H.state shelf.old) (streamed (E.taken err.old) (E.faults err.old)))
        (surroundings (H.state shelf.new) (streamed (E.taken err.new) (E.faults err.new)))
        result.code }
    ensures handed { IsSome result.cut ↔ ((result.code ≡ 0) ⊎ (result.code ≡ 8)) }
    ensures named { map P.label passes.new.items ≡ map P.label passes.old.items }
    ensures ran { (result.code ≡ 0) ⊎ (result.code ≡ 8) → EachRose (map P.runs passes.old.items) (map P.runs passes.new.items) }
{
    match run_checker(alloc, words, passes, shelf) {
        Ok(answer) => tell_answer(answer, err),
        Err(fault) => Verdict {
            code: tell_fault(alloc, fault, err),
            cut: None,
        },
    }
}

/// Checks as the words say: the answer, or the fault that is due.
#[tactic(auto, using(crate::proofs::Endings::checker_endings))]
fn run_checker<'a, P: Pass, H: Shelf>(
    alloc: Global,
    words: &'a [String],
    passes: &mut Vec<P>,
    shelf: &mut H,
) -> Result<Answer, CheckerFault<'a>>
    ensures ends { MatchResult result
        (λ answer. CheckerEnds (Chain P.does P.changed passes.old.items passes.new.items) (Some answer.cut) (H.state shelf.old) (H.state shelf.new)
        (check_command_of (spelled words.entry.now)) (due_of answer.rejection))
        (λ fault. CheckerEnds (Chain P.does P.changed passes.old.items passes.new.items) None (H.state shelf.old) (H.state shelf.new)
        (check_command_of (spelled words.entry.now)) (Failure fault)) }
    ensures named { map P.label passes.new.items ≡ map P.label passes.old.items }
    ensures ran { OnOk result (EachRose (map P.runs passes.old.items) (map P.runs passes.new.items)) }
{
    match check_command(alloc, words) {
        Ok(command) => check_source(alloc, command, passes, shelf),
        Err(CommandError::NoCommand) => Err(CheckerFault::Usage),
        Err(CommandError::Memory) => Err(CheckerFault::NoMemory),
    }
}

/// Checks the object against the source that the command names.
#[tactic(auto, using(crate::proofs::Endings::checker_endings))]
fn check_source<'a, P: Pass, H: Shelf>(
    alloc: Global,
    command: CheckCommand<'a>,
    passes: &mut Vec<P>,
    shelf: &mut H,
) -> Result<Answer, CheckerFault<'a>>
    ensures ends { MatchResult result
        (λ answer. CheckerEnds (Chain P.does P.changed passes.old.items passes.new.items) (Some answer.cut) (H.state shelf.old) (H.state shelf.new)
        (Some (check_request command.entry)) (due_of answer.rejection))
        (λ fault. CheckerEnds (Chain P.does P.changed passes.old.items passes.new.items) None (H.state shelf.old) (H.state shelf.new)
        (Some (check_request command.entry)) (Failure fault)) }
    ensures named { map P.label passes.new.items ≡ map P.label passes.old.items }
    ensures ran { OnOk result (EachRose (map P.runs passes.old.items) (map P.runs passes.new.items)) }
{
    match cut_source(alloc, command.source, passes, shelf) {
        Ok(cut) => check_cut(alloc, command, cut, shelf),
        Err(fault) => Err(fault),
    }
}

/// Checks the object against the regions of the source, which are handed on.
fn check_cut<'a, H: Shelf>(
    alloc: Global,
    command: CheckCommand<'a>,
    cut: CutProgram,
    shelf: &mut H,
) -> Result<Answer, CheckerFault<'a>>
    ensures { MatchResult result
        (λ answer. (answer.cut ≡ cut) × ObjectEnds (check_request command.entry) cut.flow.initial (table_of cut.table)
        (H.state shelf.old) (H.state shelf.new) (due_of answer.rejection))
        (λ fault. ObjectEnds (check_request command.entry) cut.flow.initial (table_of cut.table)
        (H.state shelf.old) (H.state shelf.new) (Failure fault)) }
{
    match check_object(alloc, command, &cut, shelf) {
        Ok(rejection) => Ok(Answer { cut, rejection }),
        Err(fault) => Err(fault),
    }
}
