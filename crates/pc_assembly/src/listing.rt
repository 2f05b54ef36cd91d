//! A text as the object whose listing it is.

ghost use Rattle.std.specs.Prelude.{◌≡◌, ◌≤◌, ◌<◌, length, IfOk, List, Result};
ghost use Rattle.pc_word.specs.Exact.{IsExact, IsRefusal};
ghost use Rattle.pc_object.specs.Cause.{object_cause};
ghost use Rattle.pc_object.specs.ObjectText.{CodeWithNotes, IsObject, object_of};
ghost use Rattle.pc_object.specs.declared.refusal.ObjectError.{ObjectError as Refusal};
ghost use Rattle.pc_assembly.specs.models.Headers.{header_of};
ghost use Rattle.pc_assembly.specs.Assembled.{rows_bytes, part_size, content_size, place_among, is_word_at, word_among, place_at};
ghost use Rattle.pc_assembly.specs.Object.{offset_of, told, loaded, assembled, listing_reading, listing_cause};

use crate::draft::{Draft, body, first_line};
use crate::error::{ListingError, Place};
use crate::header::object_header;
use crate::limits::Header;
use crate::line::{Content, Line, Totals};
use crate::names::names_of;
use crate::part::Part;
use crate::pushing::push_notes;
use crate::text::line_start;
use pc_machine::Leaf;
use pc_object::{
    END_BYTES, GOTO_BYTES, Object, ObjectError, TRAP_BYTES, decode, item_bytes, push_u16,
    test_bytes,
};
use pc_word::MOST_OBJECT;
use std::alloc::Global;

/// How many bytes of an object a part of a row is.
fn part_size(part: Part) -> u32
    ensures { result ≡ part_size part }
{
    match part {
        Part::Item(item) => item_bytes(item),
        Part::Test(on) => test_bytes(on),
        Part::Leaf(Leaf::Goto { .. }) => GOTO_BYTES,
        Part::Leaf(Leaf::Stop) => END_BYTES,
        Part::Leaf(Leaf::Trap { .. }) => TRAP_BYTES,
    }
}

/// How many bytes of the rows of an object a line is.
fn content_size(content: Content) -> usize
    ensures { result ≡ content_size content }
{
    match content {
        Content::Part(part) => part_size(part) as usize,
        Content::Word { .. } | Content::Row | Content::Note(_) => 0,
    }
}

/// Where the byte of the rows stands that has so many bytes of the rows before it.
#[tactic(auto, unfolding(crate::specs::Assembled::place_among))]
fn place_among(offset: usize, last: Place, lines: &[Line]) -> Place
    ensures { result ≡ place_among offset last lines.now }
{
    let mut left = offset;
    for line in lines {
        let size = content_size(line.content);
        if left < size {
            return line.at;
        }
        left -= size;
    }
    last
}

/// Whether a line is the word of the data that has this many bytes before it.
fn is_word_at(before: usize, content: Content) -> bool
    ensures { result ≡ is_word_at before content }
{
    match content {
        Content::Word { array, .. } => before == 4 * (array as usize + 1),
        Content::Row | Content::Part(_) | Content::Note(_) => false,
    }
}

/// Where the word of the data stands that has this many bytes of the data before it.
#[tactic(auto, unfolding(crate::specs::Assembled::word_among))]
fn word_among(before: usize, last: Place, lines: &[Line]) -> Place
    ensures { result ≡ word_among before last lines.now }
{
    let mut left = before;
    for line in lines {
        if is_word_at(left, line.content) {
            return line.at;
        }
        left = left.saturating_sub(4);
    }
    last
}

/// Where a byte stands, by its offset.
fn place_at(number: usize, data_at: usize, rows_at: usize, offset: u32, lines: &[Line]) -> Place
    ensures { result ≡ place_at number data_at rows_at offset lines.now }
{
    let offset = offset as usize;
    if offset < rows_at {
        return word_among(offset.saturating_sub(data_at), line_start(number), lines);
    }
    place_among(offset - rows_at, line_start(number), lines)
}

/// The offset that a refusal of bytes names.
fn offset_of(why: ObjectError) -> u32
    ensures { result ≡ offset_of why }
{
    match why {
        ObjectError::BadMagic | ObjectError::Memory => 0,
        ObjectError::Truncated { offset } => offset,
        ObjectError::BadField { offset, .. } => offset,
        ObjectError::Trailing { offset } => offset,
    }
}

/// A refusal of bytes with its place in the listing.
fn refusal(
    number: usize,
    data_at: usize,
    rows_at: usize,
    lines: &[Line],
    why: ObjectError,
) -> ListingError
    ensures { (answer : Result CodeWithNotes Refusal) → IsRefusal (object_cause why) answer
        → IsRefusal (listing_cause result) (told number data_at rows_at lines.now answer) }
{
    match why {
        ObjectError::Memory => ListingError::Memory,
        ObjectError::BadMagic
        | ObjectError::Truncated { .. }
        | ObjectError::BadField { .. }
        | ObjectError::Trailing { .. } => ListingError::Refused {
            at: place_at(number, data_at, rows_at, offset_of(why), lines),
            why,
        },
    }
}

/// The object of the bytes that a listing stands for.
fn loaded(
    alloc: Global,
    number: usize,
    data_at: usize,
    rows_at: usize,
    lines: &[Line],
    bytes: &[u8],
) -> Result<Object, ListingError>
    ensures read { IsExact object_of listing_cause result (loaded number data_at rows_at lines.now bytes.now) }
    ensures object { IfOk result (λ object. IsObject (object_of object)) }
{
    if bytes.len() > MOST_OBJECT {
        return Err(ListingError::TooLong);
    }
    match decode(alloc, bytes) {
        Ok(object) => Ok(object),
        Err(why) => Err(refusal(number, data_at, rows_at, lines, why)),
    }
}

/// The object of a first line and the lines after it.
#[tactic(auto, unfolding(crate::specs::Object::assembled))]
fn assembled(
    alloc: Global,
    number: usize,
    header: &Header,
    draft: &Draft,
    totals: Totals,
) -> Result<Object, ListingError>
    requires few { length header.now.arrays.items ≤ 255 }
    requires rows { draft.now.rows.items ≡ rows_bytes draft.now.lines.items }
    ensures read { IsExact object_of listing_cause result (assembled number (header_of header.now) draft.now.lines.items totals) }
    ensures object { IfOk result (λ object. IsObject (object_of object)) }
{
    let lines = draft.lines.as_slice();
    let mut bytes = object_header(alloc, header, lines, totals.rows)?;
    let data_at = 10 + 4 * header.arrays.len();
    let rows_at = bytes.len();
    bytes.extend_from_slice(draft.rows.as_slice())?;
    push_u16(&mut bytes, totals.notes)?;
    push_notes(&mut bytes, lines)?;
    loaded(alloc, number, data_at, rows_at, lines, bytes.as_slice())
}

/// The object whose listing a text is, as `pview` writes it or by hand.
///
/// The text is read line by line, and the first that is wrong decides, with the place of what it does not
/// go on with. The bytes that the lines stand for are then read as an object, which has to keep the limits
/// that it states and to be well formed; a refusal is told with the place of the line of its byte, or of the
/// line of the limits for what is neither of the rows nor a word of the data. `Memory` alone may come at any text. The time is
/// linear in the text's length, with one pass over the lines more for each array.
#[tactic(auto, unfolding(crate::specs::Object::listing_reading))]
pub fn read_listing(alloc: Global, text: &[u8]) -> Result<Object, ListingError>
    ensures read { IsExact object_of listing_cause result (listing_reading text.now) }
    // What is read is an object.
    ensures object { IfOk result (λ object. IsObject (object_of object)) }
{
    let (header, number, rest) = first_line(alloc, text)?;
    let names = names_of(alloc, rest)?;
    let (draft, totals) = body(alloc, &names, header.arrays.as_slice(), number + 1, rest)?;
    assembled(alloc, number, &header, &draft, totals)
}
