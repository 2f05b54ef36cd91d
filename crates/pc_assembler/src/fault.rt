//! Why the assembler does not end with success.
ghost use Rattle.std.specs.Prelude.{◌≡◌, Some, option_map};
ghost use Rattle.pc_driver.specs.Objects.{told_of_object};
ghost use Rattle.pc_assembler.specs.Faults.{told_of_listing, object_at};
ghost use Rattle.pc_assembler.specs.Told.{assembler_status};
ghost use Rattle.pc_assembler.specs.models.Steps.{fault_of};

use pc_assembly::{Expected, ListingError, Place};
use pc_object::ObjectError;
use pc_report::ObjectFault;

/// Why a text is refused.
#[derive(Clone, Copy, Debug, PartialEq, Eq)]
pub enum TextFault {
    /// It has more than 4,294,967,296 bytes.
    TooLong,
    /// A listing does not go on so at this place.
    Unexpected { at: Place, expected: Expected },
    /// The object that it stands for is refused, for what stands at this place.
    Object { at: Place, fault: ObjectFault },
    /// The object that it stands for has more than 16,777,216 bytes.
    ObjectTooLong,
}

/// Why the assembler does not end with success. It borrows the name of a file.
#[derive(Clone, Copy, Debug)]
pub enum AssemblerFault<'a> {
    /// Memory ran out.
    NoMemory,
    /// The words of the command line are no command.
    Usage,
    /// The text's file was not read.
    ReadText { name: &'a str },
    /// The text is refused.
    Text { fault: TextFault },
    /// The object's file was not written.
    WriteObject { name: &'a str },
}

/// The status that tells what is due.
pub(crate) fn assembler_status(fault: AssemblerFault) -> u8
    ensures { result ≡ assembler_status fault.entry }
{
    match fault {
        AssemblerFault::NoMemory => 1,
        AssemblerFault::Usage => 2,
        AssemblerFault::ReadText { .. } => 3,
        AssemblerFault::Text { .. } => 4,
        AssemblerFault::WriteObject { .. } => 5,
    }
}

/// How a refusal of a listing is reported.
pub(crate) fn fault_of_listing<'a>(error: ListingError) -> AssemblerFault<'a>
    ensures { result ≡ fault_of (told_of_listing error) }
{
    match error {
        ListingError::Unexpected { at, expected } => AssemblerFault::Text {
            fault: TextFault::Unexpected { at, expected },
        },
        ListingError::Refused { at, why } => fault_of_object(at, why),
        ListingError::TooLong => AssemblerFault::Text {
            fault: TextFault::ObjectTooLong,
        },
        ListingError::Memory => AssemblerFault::NoMemory,
    }
}

/// How it is reported that an object is refused, for what stands at this place of its listing.
fn fault_of_object<'a>(at: Place, why: ObjectError) -> AssemblerFault<'a>
    ensures { result ≡ fault_of (option_map (object_at at) (told_of_object why)) }
{
    let fault = match why {
        ObjectError::BadMagic => ObjectFault::BadMagic,
        ObjectError::Truncated { offset } => ObjectFault::Truncated { offset },
        ObjectError::BadField { offset, flaw } => ObjectFault::BadField { offset, flaw },
        ObjectError::Trailing { offset } => ObjectFault::Trailing { offset },
        ObjectError::Memory => return AssemblerFault::NoMemory,
    };
    AssemblerFault::Text {
        fault: TextFault::Object { at, fault },
    }
}
