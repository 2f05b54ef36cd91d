//! The object that is checked.
ghost use Rattle.std.specs.Prelude.{◌≡◌, MatchResult};
ghost use Rattle.pc_command.specs.Requests.{check_request};
ghost use Rattle.pc_driver.specs.Objects.{Holds};
ghost use Rattle.pc_object.specs.ObjectText.{object_of};
ghost use Rattle.pc_outside.specs.Shelf.{ReadKeeps};
ghost use Rattle.pc_table.specs.StoredTable.{table_of};
ghost use Rattle.pc_checker.specs.Told.{Failure};
ghost use Rattle.pc_checker.specs.models.Steps.{NoObject, ObjectEnds, due_of};

use crate::certificate::check_certificate;
use crate::fault::CheckerFault;
use pc_command::CheckCommand;
use pc_driver::{Stop, load};
use pc_middle::CutProgram;
use pc_object::Object;
use pc_outside::Shelf;
use std::alloc::Global;

/// Checks the object that the command names against the regions of a source: the text of the rejection, or nothing
/// where the certificate is accepted. An error says why there is no answer.
#[tactic(auto, using(crate::proofs::Objects::objects_due))]
pub(crate) fn check_object<'a, H: Shelf>(
    alloc: Global,
    command: CheckCommand<'a>,
    cut: &CutProgram,
    shelf: &mut H,
) -> Result<Option<Vec<u8>>, CheckerFault<'a>>
    ensures { MatchResult result
        (λ rejection. ObjectEnds (check_request command.entry) cut.now.flow.initial (table_of cut.now.table)
        (H.state shelf.old) (H.state shelf.new) (due_of rejection))
        (λ fault. ObjectEnds (check_request command.entry) cut.now.flow.initial (table_of cut.now.table)
        (H.state shelf.old) (H.state shelf.new) (Failure fault)) }
{
    match read_object(alloc, command.object, shelf) {
        Ok(object) => check_certificate(alloc, command, cut, &object, shelf),
        Err(fault) => Err(fault),
    }
}

/// The object of a file. An error says why there is none.
#[tactic(auto, using(crate::proofs::Objects::loads_due))]
fn read_object<'a, H: Shelf>(
    alloc: Global,
    name: &'a str,
    shelf: &mut H,
) -> Result<Object, CheckerFault<'a>>
    ensures object { MatchResult result (λ object. Holds (H.state shelf.old).held name.entry.now (object_of object))
        (λ fault. NoObject name.entry.now (H.state shelf.old) (H.state shelf.new) fault) }
    ensures keeps { ReadKeeps (H.state shelf.old) (H.state shelf.new) }
{
    match load(alloc, name, shelf) {
        Ok(object) => Ok(object),
        Err(Stop::ReadObject) => Err(CheckerFault::ReadFile { name }),
        Err(Stop::Object { fault }) => Err(CheckerFault::Object { fault }),
        Err(Stop::Memory) => Err(CheckerFault::NoMemory),
        Err(Stop::ReadInput | Stop::Input { .. }) => unreachable!(),
    }
}
