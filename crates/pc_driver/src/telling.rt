//! The end of a program: its line on the error output, and its status.
ghost use Rattle.std.specs.Prelude.{◌≡◌, ◌⊎◌, IsSome, Some};
ghost use Rattle.pc_report.specs.declared.fault.ToolFault.TheVariants.{NoMemory};
ghost use Rattle.pc_driver.specs.Due.{Told, fault_status, trap_status};
ghost use Rattle.pc_driver.specs.Streams.{streamed};

use crate::line::send_line;
use pc_outside::Sink;
use pc_report::{ReportError, Speaker, ToolFault, fault_text, out_of_memory_line};
use pc_word::TrapKind;
use std::alloc::Global;

/// Tells what is due: sends its line, and gives the status that the program ends with. Where there is no
/// memory for the line, it tells this.
pub fn tell<E: Sink>(alloc: Global, who: Speaker, due: Option<ToolFault>, err: &mut E) -> u8
    ensures { Told due.entry (streamed (E.taken err.old) (E.faults err.old)) (streamed (E.taken err.new) (E.faults err.new)) result
        ⊎ (IsSome due.entry × Told (Some (NoMemory who)) (streamed (E.taken err.old) (E.faults err.old)) (streamed (E.taken err.new) (E.faults err.new)) result) }
{
    match due {
        Some(fault) => tell_fault(alloc, who, fault, err),
        None => 0,
    }
}

/// Tells a fault, or that there is no memory for its line.
fn tell_fault<E: Sink>(alloc: Global, who: Speaker, fault: ToolFault, err: &mut E) -> u8
    ensures { Told (Some fault.entry) (streamed (E.taken err.old) (E.faults err.old)) (streamed (E.taken err.new) (E.faults err.new)) result
        ⊎ Told (Some (NoMemory who)) (streamed (E.taken err.old) (E.faults err.old)) (streamed (E.taken err.new) (E.faults err.new)) result }
{
    match fault_text(alloc, &fault) {
        Ok(line) => send_line(line.as_slice(), status_of(fault), err),
        Err(ReportError::Memory) => send_line(out_of_memory_line(who), 1, err),
    }
}

/// The status that tells a fault.
fn status_of(fault: ToolFault) -> u8
    ensures { result ≡ fault_status fault.entry }
{
    match fault {
        ToolFault::NoMemory { .. } => 1,
        ToolFault::Usage { .. } => 2,
        ToolFault::ReadFile { .. } | ToolFault::ReadInput { .. } => 3,
        ToolFault::Source { .. } | ToolFault::Object { .. } | ToolFault::Input { .. } => 4,
        ToolFault::WriteFile { .. } | ToolFault::WriteOutput { .. } => 5,
        ToolFault::Budget { .. } => 6,
        ToolFault::Machine { .. } => 7,
        ToolFault::Trap { kind, .. } => trap_status(kind),
    }
}

/// The status of a trap.
fn trap_status(kind: TrapKind) -> u8
    ensures { result ≡ trap_status kind }
{
    match kind {
        TrapKind::DivideByZero => 10,
        TrapKind::OutOfBounds => 11,
        TrapKind::EndOfInput => 12,
    }
}
