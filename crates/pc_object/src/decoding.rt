//! Bytes as an object.

ghost use Rattle.std.specs.Prelude.{◌≡◌, ◌≤◌, ◌∷◌, [], length, Result, Ok, Err, IfOk};
ghost use Rattle.pc_word.specs.Ranges.{AreLimits};
ghost use Rattle.pc_object.specs.ObjectText.{CodeWithNotes, object_of, object_text, IsObject};
ghost use Rattle.pc_object.specs.Numbers.{HasWords};
ghost use Rattle.pc_object.specs.models.Headers.{shown};
ghost use Rattle.pc_word.specs.Exact.{IsExact};
ghost use Rattle.pc_object.specs.Cause.{object_cause};
ghost use Rattle.pc_object.specs.models.HaltCause.{halt_cause};
ghost use Rattle.pc_object.specs.Reading.{magic_at, version_at, header_at, note_at, notes_at, end_at, object_at, object_reading, told};
ghost use Rattle.pc_word.specs.MachineLimits.{most_object};

use crate::fields::{array_count_of, choice, half, limits, number, row_count_of};
use crate::object::{Note, Object};
use crate::refusal::{Halt, ObjectError, Refusal};
use crate::rows::rows;
use crate::storage::{Storage, storage_of};
use crate::version::Version;
use pc_machine::{Bounds, Code};
use pc_word::{Limits, Seq};
use std::alloc::Global;

/// The object that the bytes are the text of.
///
/// The bytes are read once, from left to right; the first field that is wrong decides. What
/// [`encode`](crate::encode) wrote is read as the object that it was, where neither call wants
/// memory: its clauses are what `only` asks for.
pub fn decode(alloc: Global, bytes: &[u8]) -> Result<Object, ObjectError>
    requires { length bytes.now ≤ most_object }
    // What is read is an object, and the bytes are its text.
    ensures object { IfOk result (λ object. IsObject (object_of object)) }
    ensures words { IfOk result (λ object. HasWords (object_of object)) }
    ensures text { IfOk result (λ object. bytes.now ≡ object_text (object_of object)) }
    // The text of an object is read, and as that object.
    ensures only { (object : CodeWithNotes) → IsObject object → HasWords object → bytes.now ≡ object_text object
        → IsExact object_of object_cause result (Ok object) }
    // Which refusal it is.
    ensures exact { IsExact object_of object_cause result (object_reading bytes.now) }
{
    told_object(alloc, bytes)
}

/// The object that the bytes are, or the refusal by its offset.
#[tactic(auto, unfolding(crate::specs::Reading::object_reading))]
fn told_object(alloc: Global, bytes: &[u8]) -> Result<Object, ObjectError>
    requires { length bytes.now ≤ most_object }
    ensures { IsExact object_of object_cause result (object_reading bytes.now) }
{
    match object(alloc, bytes) {
        Ok(object) => Ok(object),
        Err(Halt::Memory) => Err(ObjectError::Memory),
        Err(Halt::Refused(refusal)) => Err(tell(bytes, refusal)),
    }
}

/// A refusal by its offset.
fn tell(bytes: &[u8], refusal: Refusal) -> ObjectError
    requires { length bytes.now ≤ most_object }
    ensures { result ≡ told (length bytes.now) refusal }
{
    match refusal {
        Refusal::NotMagic => ObjectError::BadMagic,
        Refusal::Short => ObjectError::Truncated {
            offset: bytes.len() as u32,
        },
        Refusal::Flawed { left, flaw } => ObjectError::BadField {
            offset: bytes.len().saturating_sub(left) as u32,
            flaw,
        },
        Refusal::Longer { left } => ObjectError::Trailing {
            offset: bytes.len().saturating_sub(left) as u32,
        },
    }
}

/// What the header says of the rows.
#[derive(Drop)]
struct Header {
    limits: Limits,
    storage: Storage,
    rows: u32,
}

#[tactic(auto, unfolding(crate::specs::Reading::object_at))]
fn object(alloc: Global, bytes: &[u8]) -> Result<Object, Halt>
    ensures { IsExact object_of halt_cause result (object_at bytes.now) }
{
    let (header, rest) = header_of(alloc, bytes)?;
    let bounds = Bounds {
        limits: header.limits,
        registers: header.storage.registers as usize,
        arrays: header.storage.arrays.len(),
        rows: header.rows as usize,
    };
    let (rows, rest) = rows(alloc, &bounds, rest)?;
    let (count, rest) = half(rest)?;
    let (notes, rest) = notes(alloc, count, rest)?;
    end(rest)?;
    Ok(Object {
        code: Code {
            limits: header.limits,
            registers: header.storage.registers,
            arrays: Seq::from_vec(header.storage.arrays),
            initial: Seq::from_vec(header.storage.initial),
            rows: Seq::from_vec(rows),
        },
        notes: Seq::from_vec(notes),
    })
}

#[tactic(auto, unfolding(crate::specs::Reading::header_at))]
fn header_of(alloc: Global, bytes: &[u8]) -> Result<(Header, &[u8]), Halt>
    ensures { IsExact (λ x. (shown x.0, x.1.now)) halt_cause result (header_at bytes.now) }
{
    let (version, rest) = version(bytes)?;
    let (limits, rest) = limits(rest)?;
    let (count, rest) = array_count_of(rest)?;
    let (storage, rest) = storage_of(alloc, version, count, rest)?;
    let (rows, rest) = row_count_of(rest)?;
    let header = Header {
        limits,
        storage,
        rows,
    };
    Ok((header, rest))
}

#[tactic(auto, unfolding(crate::specs::Reading::version_at))]
fn version(bytes: &[u8]) -> Result<(Version, &[u8]), Halt>
    ensures { IsExact (λ x. (x.0, x.1.now)) halt_cause result (version_at bytes.now) }
{
    let rest = magic(b"PTV", bytes)?;
    match rest {
        [] => Err(Halt::Refused(Refusal::Short)),
        [b'1', rest @ ..] => Ok((Version::Ptv1, rest)),
        [b'2', rest @ ..] => Ok((Version::Ptv2, rest)),
        [_, ..] => Err(Halt::Refused(Refusal::NotMagic)),
    }
}

fn magic<'a>(magic: &[u8], bytes: &'a [u8]) -> Result<&'a [u8], Halt>
    ensures { IsExact (λ rest. rest.now) halt_cause result (magic_at magic.now bytes.now) }
{
    let mut rest = bytes;
    for byte in magic {
        let [first, after @ ..] = rest else {
            return Err(Halt::Refused(Refusal::Short));
        };
        if first != byte {
            return Err(Halt::Refused(Refusal::NotMagic));
        }
        rest = after;
    }
    Ok(rest)
}

fn notes(alloc: Global, count: u16, bytes: &[u8]) -> Result<(Vec<Note>, &[u8]), Halt>
    ensures { IsExact (λ x. (x.0.items, x.1.now)) halt_cause result (notes_at count bytes.now) }
{
    let mut notes = Vec::new(alloc);
    let mut rest = bytes;
    for _ in 0..count {
        let (note, after) = note(rest)?;
        notes.push(note)?;
        rest = after;
    }
    Ok((notes, rest))
}

#[tactic(auto, unfolding(crate::specs::Reading::note_at))]
fn note(bytes: &[u8]) -> Result<(Note, &[u8]), Halt>
    ensures { IsExact (λ x. (x.0, x.1.now)) halt_cause result (note_at bytes.now) }
{
    let (choice, rest) = choice(bytes)?;
    let (line, rest) = number(rest)?;
    let (number_of, rest) = number(rest)?;
    let (limit, rest) = number(rest)?;
    let note = Note {
        choice,
        line,
        number: number_of,
        limit,
    };
    Ok((note, rest))
}

fn end(bytes: &[u8]) -> Result<(), Halt>
    ensures { IsExact (λ x. x) halt_cause result (end_at bytes.now) }
{
    match bytes {
        [] => Ok(()),
        _ => Err(Halt::Refused(Refusal::Longer { left: bytes.len() })),
    }
}
