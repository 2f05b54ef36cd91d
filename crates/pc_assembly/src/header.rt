//! The writers of an object's header.

ghost use Rattle.std.specs.Prelude.{◌≡◌, ◌++◌, ◌≤◌, length, IfOk, IfErr, OnOk};
ghost use Rattle.std.specs.List.{flat_map};
ghost use Rattle.pc_object.specs.ObjectText.{data_text, storage_text};
ghost use Rattle.pc_assembly.specs.models.Headers.{header_of};
ghost use Rattle.pc_assembly.specs.Assembled.{content_words, array_words, initial_from, header_with, header_bytes};

use crate::error::ListingError;
use crate::limits::Header;
use crate::line::{Content, Line};
use pc_object::{Version, push_data, push_lengths, push_u16, push_u32, push_version, version_for};
use pc_word::{Seq, WordList};
use std::alloc::{AllocError, Global};

/// Appends the data of an array. Where a number of four bytes does not tell how many words there are, there is no
/// memory for the object either.
fn push_words(out: &mut Vec<u8>, words: &[i32]) -> Result<(), ListingError>
    ensures text { OnOk result (out.new.items ≡ out.old.items ++ data_text words.now) }
    ensures memory { IfErr result (λ error. error ≡ ListingError.Memory) }
{
    if words.len() > u32::MAX as usize {
        return Err(ListingError::Memory);
    }
    Ok(push_data(out, words)?)
}

fn push_each_data(out: &mut Vec<u8>, lists: &[WordList]) -> Result<(), ListingError>
    ensures text { OnOk result (out.new.items ≡ out.old.items ++ flat_map data_text lists.now) }
    ensures memory { IfErr result (λ error. error ≡ ListingError.Memory) }
{
    for words in lists {
        push_words(out, words.as_slice())?;
    }
    Ok(())
}

fn push_storage(
    out: &mut Vec<u8>,
    version: Version,
    header: &Header,
    initial: &[WordList],
) -> Result<(), ListingError>
    ensures text { OnOk result (out.new.items ≡ out.old.items ++ storage_text version header.now.registers header.now.arrays.items initial.now) }
    ensures memory { IfErr result (λ error. error ≡ ListingError.Memory) }
{
    match version {
        Version::Ptv1 => Ok(push_lengths(out, header.arrays.as_slice())?),
        Version::Ptv2 => {
            push_u16(out, header.registers)?;
            push_lengths(out, header.arrays.as_slice())?;
            push_each_data(out, initial)
        }
    }
}

/// The words with which an array begins, as lines tell them.
fn array_words(alloc: Global, array: usize, lines: &[Line]) -> Result<WordList, AllocError>
    ensures { IfOk result (λ words. words ≡ array_words array lines.now) }
{
    let mut words = Seq::new(alloc);
    for line in lines {
        push_word_of(&mut words, array, line.content)?;
    }
    Ok(words)
}

/// Appends the word of an array's data that a line tells, if it tells one.
fn push_word_of(words: &mut WordList, array: usize, content: Content) -> Result<(), AllocError>
    ensures { OnOk result (words.new ≡ words.old ++ content_words array content) }
{
    match content {
        Content::Word { array: of, value } => {
            if of as usize == array {
                words.push(value)?;
            }
            Ok(())
        }
        Content::Row | Content::Part(_) | Content::Note(_) => Ok(()),
    }
}

/// The words with which so many arrays begin, after those of the arrays before them.
#[tactic(auto, unfolding(crate::specs::Assembled::initial_from))]
fn initial_from(
    alloc: Global,
    count: usize,
    before: Vec<WordList>,
    lines: &[Line],
) -> Result<Vec<WordList>, AllocError>
    ensures { IfOk result (λ initial. initial.items ≡ initial_from count before.items lines.now) }
{
    if count == 0 {
        return Ok(before);
    }
    let mut initial = before;
    let words = array_words(alloc, initial.len(), lines)?;
    initial.push(words)?;
    initial_from(alloc, count - 1, initial, lines)
}

/// The header of an object whose arrays begin with these words.
fn header_with(
    alloc: Global,
    header: &Header,
    initial: &[WordList],
    rows: u32,
) -> Result<Vec<u8>, ListingError>
    requires { length header.now.arrays.items ≤ 255 }
    ensures text { IfOk result (λ bytes. bytes.items ≡ header_with (header_of header.now) initial.now rows) }
    ensures memory { IfErr result (λ error. error ≡ ListingError.Memory) }
{
    let mut out = Vec::new(alloc);
    let limits = header.limits;
    let version = version_for(header.registers, initial);
    push_version(&mut out, version)?;
    out.extend_from_slice(&[
        limits.ops,
        limits.tests,
        limits.mem,
        header.arrays.len() as u8,
    ])?;
    push_storage(&mut out, version, header, initial)?;
    push_u32(&mut out, rows)?;
    Ok(out)
}

/// The header of the object that a listing stands for.
#[tactic(auto, unfolding(crate::specs::Assembled::header_bytes))]
pub fn object_header(
    alloc: Global,
    header: &Header,
    lines: &[Line],
    rows: u32,
) -> Result<Vec<u8>, ListingError>
    requires { length header.now.arrays.items ≤ 255 }
    ensures text { IfOk result (λ bytes. bytes.items ≡ header_bytes (header_of header.now) lines.now rows) }
    ensures memory { IfErr result (λ error. error ≡ ListingError.Memory) }
{
    let initial = initial_from(alloc, header.arrays.len(), Vec::new(alloc), lines)?;
    header_with(alloc, header, initial.as_slice(), rows)
}
