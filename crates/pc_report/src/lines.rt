//! The line that tells a fault.
ghost use Rattle.std.specs.Prelude.{◌≡◌, IfOk};
ghost use Rattle.pc_report.specs.declared.fault.ToolFault.TheVariants.{NoMemory};
ghost use Rattle.pc_report.specs.FaultLine.{fault_line};

use crate::error::ReportError;
use crate::fault::{Speaker, ToolFault};
use std::alloc::Global;

/// The line that tells a fault, with its line feed.
pub fn fault_text(alloc: Global, fault: &ToolFault) -> Result<Vec<u8>, ReportError>
    ensures { IfOk result (λ text. text.items ≡ fault_line fault.now) }
{
    let text = format!(in alloc; "{fault}\n")?;
    Ok(text.into_bytes())
}

/// The line that tells that memory ran out, which itself takes none.
pub fn out_of_memory_line(who: Speaker) -> &'static [u8]
    ensures { result.now ≡ fault_line (NoMemory who) }
{
    match who {
        Speaker::Pcc => b"pcc: out of memory\n",
        Speaker::Pvm => b"pvm: out of memory\n",
        Speaker::Pview => b"pview: out of memory\n",
        Speaker::Pstat => b"pstat: out of memory\n",
        Speaker::Pasm => b"pasm: out of memory\n",
        Speaker::Pcheck => b"pcheck: out of memory\n",
        Speaker::Pexplain => b"pexplain: out of memory\n",
    }
}
