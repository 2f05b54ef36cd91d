//! The top call.
ghost use Rattle.pc_command.specs.Requests.{simulate_command_of};
ghost use Rattle.pc_command.specs.Words.{spelled};
ghost use Rattle.pc_driver.specs.Outside.{outside_of};
ghost use Rattle.pc_driver.specs.Streams.{streamed};
ghost use Rattle.pc_simulator.specs.Simulator.{SimulatorPromise};

use crate::simulate::run_simulator;
use pc_driver::tell;
use pc_outside::{Shelf, Sink, Source};
use pc_report::Speaker;
use std::alloc::Global;

/// The whole simulator, over the outside that is lent, and the status that it ends with. `words` are those of the
/// command line without the simulator's own name: `OBJ [--cycles N]`. It loads the object at OBJ, takes the whole
/// input, runs the object's code for at most so many cycles, and sends the line of each number that is printed.
/// What is due then is reported on the error output.
pub fn simulator<H: Shelf, I: Source, O: Sink, E: Sink>(
    alloc: Global,
    words: &[String],
    shelf: &mut H,
    input: &mut I,
    out: &mut O,
    err: &mut E,
) -> u8
    ensures { SimulatorPromise (simulate_command_of (spelled words.now))
        (outside_of (H.state shelf.old) (streamed (I.left input.old) (I.faults input.old)) (streamed (O.taken out.old) (O.faults out.old)) (streamed (E.taken err.old) (E.faults err.old)))
        (outside_of (H.state shelf.new) (streamed (I.left input.new) (I.faults input.new)) (streamed (O.taken out.new) (O.faults out.new)) (streamed (E.taken err.new) (E.faults err.new)))
        result }
{
    let due = run_simulator(alloc, words, shelf, input, out);
    tell(alloc, Speaker::Pvm, due, err)
}
