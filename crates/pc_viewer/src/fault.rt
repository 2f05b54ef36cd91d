//! Why the viewer does not end with success.
ghost use Rattle.std.specs.Prelude.{◌≡◌};
ghost use Rattle.pc_viewer.specs.Told.{fault_told, view_status};
ghost use Rattle.pc_viewer.specs.models.Steps.{fault_of_object};

use pc_object::ObjectError;
use pc_report::{ObjectFault, Speaker, ToolFault};

/// Why the viewer does not end with success. It borrows the name of a file.
#[derive(Clone, Copy, Debug)]
pub enum ViewFault<'a> {
    /// Memory ran out.
    NoMemory,
    /// The words of the command line are no command.
    Usage,
    /// The object's file was not read.
    ReadObject { name: &'a str },
    /// The object is refused.
    Object { fault: ObjectFault },
    /// The output was not written.
    WriteOutput,
}

/// What is due, as the programs tell it.
pub(crate) fn fault_told<'a>(fault: ViewFault<'a>) -> ToolFault<'a>
    ensures { result ≡ fault_told fault.entry }
{
    let who = Speaker::Pview;
    match fault {
        ViewFault::NoMemory => ToolFault::NoMemory { who },
        ViewFault::Usage => ToolFault::Usage { who },
        ViewFault::ReadObject { name } => ToolFault::ReadFile { who, name },
        ViewFault::Object { fault } => ToolFault::Object { who, fault },
        ViewFault::WriteOutput => ToolFault::WriteOutput { who },
    }
}

/// The status that tells what is due.
pub(crate) fn view_status(fault: ViewFault) -> u8
    ensures { result ≡ view_status fault.entry }
{
    match fault {
        ViewFault::NoMemory => 1,
        ViewFault::Usage => 2,
        ViewFault::ReadObject { .. } => 3,
        ViewFault::Object { .. } => 4,
        ViewFault::WriteOutput => 5,
    }
}

/// How a refusal of the loader is reported.
pub(crate) fn fault_of_object<'a>(error: ObjectError) -> ViewFault<'a>
    ensures { result ≡ fault_of_object error }
{
    let fault = match error {
        ObjectError::BadMagic => ObjectFault::BadMagic,
        ObjectError::Truncated { offset } => ObjectFault::Truncated { offset },
        ObjectError::BadField { offset, flaw } => ObjectFault::BadField { offset, flaw },
        ObjectError::Trailing { offset } => ObjectFault::Trailing { offset },
        ObjectError::Memory => return ViewFault::NoMemory,
    };
    ViewFault::Object { fault }
}
