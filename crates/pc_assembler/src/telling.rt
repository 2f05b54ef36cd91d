//! The end of the assembler: its line on the error output, and its status.
ghost use Rattle.std.specs.Prelude.{◌≡◌, ◌⊎◌, IsSome, Some};
ghost use Rattle.pc_assembler.specs.declared.fault.AssemblerFault.TheVariants.{NoMemory};
ghost use Rattle.pc_driver.specs.Streams.{streamed};
ghost use Rattle.pc_assembler.specs.Told.{Told};

use crate::fault::{AssemblerFault, assembler_status};
use crate::line::assembler_line;
use pc_driver::send_line;
use pc_outside::Sink;
use pc_report::{Speaker, out_of_memory_line};
use std::alloc::Global;

/// Tells what is due: sends its line, and gives the status that the assembler ends with. Where there is no
/// memory for the line, it tells this.
pub(crate) fn tell<E: Sink>(alloc: Global, due: Option<AssemblerFault>, err: &mut E) -> u8
    ensures { Told due.entry (streamed (E.taken err.old) (E.faults err.old)) (streamed (E.taken err.new) (E.faults err.new)) result
        ⊎ (IsSome due.entry × Told (Some NoMemory) (streamed (E.taken err.old) (E.faults err.old)) (streamed (E.taken err.new) (E.faults err.new)) result) }
{
    match due {
        Some(fault) => tell_fault(alloc, fault, err),
        None => 0,
    }
}

/// Tells a fault, or that there is no memory for its line.
fn tell_fault<E: Sink>(alloc: Global, fault: AssemblerFault, err: &mut E) -> u8
    ensures { Told (Some fault.entry) (streamed (E.taken err.old) (E.faults err.old)) (streamed (E.taken err.new) (E.faults err.new)) result
        ⊎ Told (Some NoMemory) (streamed (E.taken err.old) (E.faults err.old)) (streamed (E.taken err.new) (E.faults err.new)) result }
{
    match assembler_line(alloc, fault) {
        Ok(line) => send_line(line.as_slice(), assembler_status(fault), err),
        Err(_) => send_line(out_of_memory_line(Speaker::Pasm), 1, err),
    }
}
