//! A line on the error output.
ghost use Rattle.pc_driver.specs.Streams.{streamed};
ghost use Rattle.pc_driver.specs.Telling.{TellsLine};

use pc_outside::{Sink, send};

/// Sends a line, and gives the status that goes with it, or 5 where the error output fails.
pub fn send_line<E: Sink>(line: &[u8], status: u8, err: &mut E) -> u8
    ensures { TellsLine line.now status (streamed (E.taken err.old) (E.faults err.old)) (streamed (E.taken err.new) (E.faults err.new)) result }
{
    match send(err, line) {
        Ok(()) => status,
        Err(_) => 5,
    }
}
