//! A text on the output.
ghost use Rattle.pc_driver.specs.Sending.{SendsAll};
ghost use Rattle.pc_driver.specs.Streams.{streamed};

use pc_outside::{Sink, send};
use pc_report::{Speaker, ToolFault};

/// Sends a text, and gives what is due then: nothing where all of it was sent, and else that the output failed, as
/// this program tells it.
#[tactic(auto, using(crate::proofs::SentTexts::sends_due))]
pub fn send_text<'a, O: Sink>(who: Speaker, text: &[u8], out: &mut O) -> Option<ToolFault<'a>>
    ensures { SendsAll who text.now (streamed (O.taken out.old) (O.faults out.old)) (streamed (O.taken out.new) (O.faults out.new)) result }
{
    match send(out, text) {
        Ok(()) => None,
        Err(_) => Some(ToolFault::WriteOutput { who }),
    }
}
