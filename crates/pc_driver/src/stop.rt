//! Why a program came to no run of an object on an input.
ghost use Rattle.std.specs.Prelude.{◌≡◌};
ghost use Rattle.pc_driver.specs.Stops.{StopEnds};
ghost use Rattle.pc_driver.specs.models.Refusals.{stop_of_file, stop_of_object, stop_of_take, stop_of_numbers};
ghost use Rattle.pc_driver.specs.declared.stop.Stop.TheVariants.{Memory};

use crate::file::FileError;
use pc_object::ObjectError;
use pc_outside::TakeError;
use pc_report::{InputFault, ObjectFault, Speaker, ToolFault};
use pc_word::{NumbersError, OutOfMemory};
use thiserror::Error;

/// Why a program came to no run of an object on an input.
#[derive(Clone, Copy, Debug, PartialEq, Eq, Error)]
pub enum Stop {
    /// Memory ran out.
    #[error("out of memory")]
    Memory,
    /// The object's file was not read.
    #[error("the object could not be read")]
    ReadObject,
    /// The object is read, but not loaded.
    #[error("the object is not loaded")]
    Object { fault: ObjectFault },
    /// The input was not read.
    #[error("the input could not be read")]
    ReadInput,
    /// The input is read, but gives no numbers.
    #[error("the input gives no numbers")]
    Input { fault: InputFault },
}

/// What is due where a program came to no run of the object in a file of this name.
#[tactic(auto, using(crate::proofs::Taken::stops_due))]
pub fn fault_at<'a>(who: Speaker, stop: Stop, object: &'a str) -> ToolFault<'a>
    ensures { StopEnds who object.entry.now stop result }
{
    match stop {
        Stop::Memory => ToolFault::NoMemory { who },
        Stop::ReadObject => ToolFault::ReadFile { who, name: object },
        Stop::Object { fault } => ToolFault::Object { who, fault },
        Stop::ReadInput => ToolFault::ReadInput { who },
        Stop::Input { fault } => ToolFault::Input { who, fault },
    }
}

impl From<FileError> for Stop {
    ghost from_gives = { λ error given. given ≡ stop_of_file error };

    fn from(error: FileError) -> Stop {
        match error {
            FileError::Failed => Stop::ReadObject,
            FileError::TooLong => Stop::Object {
                fault: ObjectFault::TooLong,
            },
            FileError::Memory => Stop::Memory,
        }
    }
}

impl From<ObjectError> for Stop {
    ghost from_gives = { λ error given. given ≡ stop_of_object error };

    fn from(error: ObjectError) -> Stop {
        let fault = match error {
            ObjectError::BadMagic => ObjectFault::BadMagic,
            ObjectError::Truncated { offset } => ObjectFault::Truncated { offset },
            ObjectError::BadField { offset, flaw } => ObjectFault::BadField { offset, flaw },
            ObjectError::Trailing { offset } => ObjectFault::Trailing { offset },
            ObjectError::Memory => return Stop::Memory,
        };
        Stop::Object { fault }
    }
}

impl From<TakeError> for Stop {
    ghost from_gives = { λ error given. given ≡ stop_of_take error };

    fn from(error: TakeError) -> Stop {
        match error {
            TakeError::Failed => Stop::ReadInput,
            TakeError::Memory => Stop::Memory,
        }
    }
}

impl From<NumbersError> for Stop {
    ghost from_gives = { λ error given. given ≡ stop_of_numbers error };

    fn from(error: NumbersError) -> Stop {
        match error {
            NumbersError::NotNumber { offset } => Stop::Input {
                fault: InputFault::NotNumber { offset },
            },
            NumbersError::Memory => Stop::Memory,
        }
    }
}

impl From<OutOfMemory> for Stop {
    ghost from_gives = { λ _ given. given ≡ Memory };

    fn from(_error: OutOfMemory) -> Stop {
        Stop::Memory
    }
}
