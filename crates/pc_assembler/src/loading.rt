//! The bytes of the object that a file lists.
ghost use Rattle.std.specs.Prelude.{◌≡◌, ◌≤◌, length, MatchResult, IfOk};
ghost use Rattle.pc_outside.specs.Shelf.{ReadKeeps};
ghost use Rattle.pc_driver.specs.Files.{HasText};
ghost use Rattle.pc_assembler.specs.Faults.{most_text};
ghost use Rattle.pc_assembler.specs.models.Steps.{Assembles, ListsObject, RefusesText, StopsAt};

use crate::fault::{AssemblerFault, TextFault, fault_of_listing};
use pc_assembly::read_listing;
use pc_object::encode;
use pc_outside::{Shelf, ShelfError};
use std::alloc::Global;

/// Bytes of a text.
const MOST_TEXT: usize = 4_294_967_296;

/// The bytes of the object that a file lists. An error says why there are none.
#[tactic(auto, using(crate::proofs::Endings::bytes_due))]
pub(crate) fn object_bytes<'a, H: Shelf>(
    alloc: Global,
    name: &'a str,
    shelf: &mut H,
) -> Result<Vec<u8>, AssemblerFault<'a>>
    ensures bytes { MatchResult result (λ bytes. ListsObject (H.state shelf.old).held name.entry.now bytes.items)
        (λ fault. StopsAt name.entry.now (H.state shelf.old) (H.state shelf.new) fault) }
    ensures shelf { ReadKeeps (H.state shelf.old) (H.state shelf.new) }
{
    let text = read_text(alloc, name, shelf)?;
    assembled(alloc, text.as_slice())
}

/// The bytes of the object that a text lists. An error says why there are none.
fn assembled<'a>(alloc: Global, text: &[u8]) -> Result<Vec<u8>, AssemblerFault<'a>>
    requires { length text.now ≤ most_text }
    ensures { MatchResult result (λ bytes. Assembles text.now bytes.items) (λ fault. RefusesText text.now fault) }
{
    match read_listing(alloc, text) {
        Ok(object) => match encode(alloc, &object) {
            Ok(bytes) => Ok(bytes),
            Err(_) => Err(AssemblerFault::NoMemory),
        },
        Err(error) => Err(fault_of_listing(error)),
    }
}

/// The text of a file that is not too long.
#[tactic(auto, using(crate::proofs::Endings::reads_due))]
fn read_text<'a, H: Shelf>(
    alloc: Global,
    name: &'a str,
    shelf: &mut H,
) -> Result<Vec<u8>, AssemblerFault<'a>>
    ensures keeps { ReadKeeps (H.state shelf.old) (H.state shelf.new) }
    ensures few { IfOk result (λ text. length text.items ≤ most_text) }
    ensures text { MatchResult result (λ text. HasText (H.state shelf.old).held name.entry.now text.items)
        (λ fault. StopsAt name.entry.now (H.state shelf.old) (H.state shelf.new) fault) }
{
    match shelf.read_file(alloc, name, MOST_TEXT + 1) {
        Ok(text) if text.len() > MOST_TEXT => Err(AssemblerFault::Text {
            fault: TextFault::TooLong,
        }),
        Ok(text) => Ok(text),
        Err(ShelfError::Failed) => Err(AssemblerFault::ReadText { name }),
        Err(ShelfError::Memory) => Err(AssemblerFault::NoMemory),
    }
}
