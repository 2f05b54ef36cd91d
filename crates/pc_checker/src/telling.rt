//! The end of the checker: its text on the error output, and its status.
ghost use Rattle.std.specs.Prelude.{◌≡◌, ◌⊎◌, ◌↔◌, IfSome, IsSome, Some};
ghost use Rattle.pc_driver.specs.Streams.{streamed};
ghost use Rattle.pc_driver.specs.Telling.{TellsLine};
ghost use Rattle.pc_checker.specs.declared.fault.CheckerFault.TheVariants.{NoMemory};
ghost use Rattle.pc_checker.specs.Told.{Failure, Told};
ghost use Rattle.pc_checker.specs.models.Steps.{due_of};

use crate::answer::Answer;
use crate::fault::{CheckerFault, checker_status};
use crate::line::checker_line;
use crate::verdict::Verdict;
use pc_driver::send_line;
use pc_middle::CutProgram;
use pc_outside::Sink;
use pc_report::{Speaker, out_of_memory_line};
use std::alloc::Global;

/// Tells a fault, or that there is no memory for its line, and gives the status that the checker ends with.
pub(crate) fn tell_fault<E: Sink>(alloc: Global, fault: CheckerFault, err: &mut E) -> u8
    ensures { Told (Failure fault.entry) (streamed (E.taken err.old) (E.faults err.old)) (streamed (E.taken err.new) (E.faults err.new)) result
        ⊎ Told (Failure NoMemory) (streamed (E.taken err.old) (E.faults err.old)) (streamed (E.taken err.new) (E.faults err.new)) result }
{
    match checker_line(alloc, fault) {
        Ok(line) => send_line(line.as_slice(), checker_status(fault), err),
        Err(_) => send_line(out_of_memory_line(Speaker::Pcheck), 1, err),
    }
}

/// Tells an answer: nothing where the certificate is accepted, and else the text of the rejection. What the
/// certificate was held against is handed out where the answer was told whole.
pub(crate) fn tell_answer<E: Sink>(answer: Answer, err: &mut E) -> Verdict
    ensures told { Told (due_of answer.rejection) (streamed (E.taken err.old) (E.faults err.old)) (streamed (E.taken err.new) (E.faults err.new)) result.code }
    ensures handed { IsSome result.cut ↔ ((result.code ≡ 0) ⊎ (result.code ≡ 8)) }
    ensures cut { IfSome result.cut (λ cut. cut ≡ answer.cut) }
{
    let Answer { cut, rejection } = answer;
    match rejection {
        None => Verdict {
            code: 0,
            cut: Some(cut),
        },
        Some(text) => tell_rejection(text.as_slice(), cut, err),
    }
}

/// Tells a rejection by its text.
fn tell_rejection<E: Sink>(text: &[u8], cut: CutProgram, err: &mut E) -> Verdict
    ensures told { TellsLine text.now 8 (streamed (E.taken err.old) (E.faults err.old)) (streamed (E.taken err.new) (E.faults err.new)) result.code }
    ensures handed { IsSome result.cut ↔ ((result.code ≡ 0) ⊎ (result.code ≡ 8)) }
    ensures cut { IfSome result.cut (λ it. it ≡ cut) }
{
    let code = send_line(text, 8, err);
    if code == 8 {
        Verdict {
            code,
            cut: Some(cut),
        }
    } else {
        Verdict { code, cut: None }
    }
}
