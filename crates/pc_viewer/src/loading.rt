//! The text of an object in a file.
ghost use Rattle.std.specs.Prelude.{◌≡◌, ◌≤◌, length, MatchResult, IfOk};
ghost use Rattle.pc_command.specs.Requests.{view_request};
ghost use Rattle.pc_object.specs.ObjectText.{object_of, IsObject};
ghost use Rattle.pc_outside.specs.Shelf.{ReadKeeps};
ghost use Rattle.pc_driver.specs.Files.{HasText};
ghost use Rattle.pc_driver.specs.Objects.{Holds};
ghost use Rattle.pc_viewer.specs.Viewer.{view_text};
ghost use Rattle.pc_viewer.specs.models.Steps.{StopsAt, ShowsObject};
ghost use Rattle.pc_word.specs.MachineLimits.{most_object};

use crate::fault::{ViewFault, fault_of_object};
use pc_command::ViewCommand;
use pc_driver::{FileError, read_whole};
use pc_object::{Object, decode};
use pc_outside::Shelf;
use pc_report::ObjectFault;
use pc_view::{graph_text, listing_text};
use pc_word::MOST_OBJECT;
use std::alloc::{AllocError, Global};

/// The text that is asked for. An error says why there is none.
pub(crate) fn text_asked<'a, H: Shelf>(
    alloc: Global,
    command: ViewCommand<'a>,
    shelf: &mut H,
) -> Result<Vec<u8>, ViewFault<'a>>
    ensures text { MatchResult result (λ text. ShowsObject (view_request command.entry) (H.state shelf.old).held text.items)
        (λ fault. StopsAt command.entry.object.now (H.state shelf.old) (H.state shelf.new) fault) }
    ensures shelf { ReadKeeps (H.state shelf.old) (H.state shelf.new) }
{
    let object = load(alloc, command.object, shelf)?;
    match text_of(alloc, command.dot, &object) {
        Ok(text) => Ok(text),
        Err(_) => Err(ViewFault::NoMemory),
    }
}

/// The text of an object: its graph, or its listing.
fn text_of(alloc: Global, dot: bool, object: &Object) -> Result<Vec<u8>, AllocError>
    requires { IsObject (object_of object.now) }
    ensures { IfOk result (λ text. text.items ≡ view_text dot (object_of object.now)) }
{
    if dot {
        graph_text(alloc, object)
    } else {
        listing_text(alloc, object)
    }
}

/// The object of a file.
fn load<'a, H: Shelf>(alloc: Global, name: &'a str, shelf: &mut H) -> Result<Object, ViewFault<'a>>
    ensures object { MatchResult result (λ object. Holds (H.state shelf.old).held name.entry.now (object_of object))
        (λ fault. StopsAt name.entry.now (H.state shelf.old) (H.state shelf.new) fault) }
    ensures shelf { ReadKeeps (H.state shelf.old) (H.state shelf.new) }
{
    let bytes = read_object(alloc, name, shelf)?;
    match decode(alloc, bytes.as_slice()) {
        Ok(object) => Ok(object),
        Err(error) => Err(fault_of_object(error)),
    }
}

/// The bytes of a file that may be an object: they are not too many.
#[tactic(auto, using(crate::proofs::Endings::reads_due))]
fn read_object<'a, H: Shelf>(
    alloc: Global,
    name: &'a str,
    shelf: &mut H,
) -> Result<Vec<u8>, ViewFault<'a>>
    ensures keeps { ReadKeeps (H.state shelf.old) (H.state shelf.new) }
    ensures few { IfOk result (λ bytes. length bytes.items ≤ most_object) }
    ensures text { MatchResult result (λ bytes. HasText (H.state shelf.old).held name.entry.now bytes.items)
        (λ fault. StopsAt name.entry.now (H.state shelf.old) (H.state shelf.new) fault) }
{
    match read_whole(alloc, name, MOST_OBJECT, shelf) {
        Ok(bytes) => Ok(bytes),
        Err(FileError::TooLong) => Err(ViewFault::Object {
            fault: ObjectFault::TooLong,
        }),
        Err(FileError::Failed) => Err(ViewFault::ReadObject { name }),
        Err(FileError::Memory) => Err(ViewFault::NoMemory),
    }
}
