//! The readers of what the header says of registers and arrays.

ghost use Rattle.std.specs.Prelude.{◌≡◌, ◌≤◌, [], length, replicate, Result, Ok, Err, IfOk};
ghost use Rattle.pc_word.specs.Exact.{IsExact};
ghost use Rattle.pc_object.specs.models.HaltCause.{halt_cause};
ghost use Rattle.pc_object.specs.models.Headers.{shown_storage};
ghost use Rattle.pc_object.specs.Reading.{unflawed, version_flaws, register_count_at, lengths_at, data_word_at, words_at, data_at, each_data_at, initial_at, storage_at};

use crate::fields::{at_field, flawed, half, number, word};
use crate::refusal::Halt;
use crate::version::{Version, fits_ptv1};
use pc_machine::{FEW_REGISTERS, Flaw, array_length, data_count, data_tail, register_count};
use pc_word::{Seq, WordList};
use std::alloc::{AllocError, Global};

/// How many registers there are, the lengths of arrays, and the data of each.
#[derive(Drop)]
pub struct Storage {
    pub registers: u16,
    pub arrays: Vec<u32>,
    pub initial: Vec<WordList>,
}

/// The number of registers, the lengths of so many arrays, and their data.
#[tactic(auto, unfolding(crate::specs::Reading::storage_at))]
pub fn storage_of(
    alloc: Global,
    version: Version,
    count: u8,
    bytes: &[u8],
) -> Result<(Storage, &[u8]), Halt>
    ensures { IsExact (λ x. (shown_storage x.0, x.1.now)) halt_cause result (storage_at version count bytes.now) }
{
    let (registers, rest) = register_count_of(version, bytes)?;
    let (arrays, rest) = lengths(alloc, count, rest)?;
    let (initial, rest) = initial_of(alloc, version, arrays.as_slice(), rest)?;
    version_fits(version, registers, initial.as_slice(), bytes)?;
    let storage = Storage {
        registers,
        arrays,
        initial,
    };
    Ok((storage, rest))
}

/// That the text of this version, whose number of registers stands where `bytes` begin, is not one
/// for which `PTV1` is due.
fn version_fits(
    version: Version,
    registers: u16,
    initial: &[WordList],
    bytes: &[u8],
) -> Result<(), Halt>
    ensures { IsExact (λ x. x) halt_cause result (unflawed bytes.now (version_flaws version registers initial.now)) }
{
    match version {
        Version::Ptv1 => Ok(()),
        Version::Ptv2 => {
            if fits_ptv1(registers, initial) {
                return Err(flawed(bytes, Flaw::Version));
            }
            Ok(())
        }
    }
}

#[tactic(auto, unfolding(crate::specs::Reading::register_count_at))]
fn register_count_of(version: Version, bytes: &[u8]) -> Result<(u16, &[u8]), Halt>
    ensures { IsExact (λ x. (x.0, x.1.now)) halt_cause result (register_count_at version bytes.now) }
{
    match version {
        Version::Ptv1 => Ok((FEW_REGISTERS as u16, bytes)),
        Version::Ptv2 => {
            let (count, rest) = half(bytes)?;
            at_field(bytes, register_count(count as usize))?;
            Ok((count, rest))
        }
    }
}

fn lengths(alloc: Global, count: u8, bytes: &[u8]) -> Result<(Vec<u32>, &[u8]), Halt>
    ensures { IsExact (λ x. (x.0.items, x.1.now)) halt_cause result (lengths_at count 0 bytes.now) }
{
    let mut lengths = Vec::new(alloc);
    let mut elements = 0;
    let mut rest = bytes;
    for _ in 0..count {
        let (length, after) = number(rest)?;
        elements = at_field(rest, array_length(elements, length))?;
        lengths.push(length)?;
        rest = after;
    }
    Ok((lengths, rest))
}

/// The data of all arrays.
fn initial_of<'a>(
    alloc: Global,
    version: Version,
    lengths: &[u32],
    bytes: &'a [u8],
) -> Result<(Vec<WordList>, &'a [u8]), Halt>
    ensures { IsExact (λ x. (x.0.items, x.1.now)) halt_cause result (initial_at version lengths.now bytes.now) }
{
    match version {
        Version::Ptv1 => {
            let initial = no_data(alloc, lengths.len())?;
            Ok((initial, bytes))
        }
        Version::Ptv2 => each_data(alloc, lengths, bytes),
    }
}

/// So many empty lists.
fn no_data(alloc: Global, count: usize) -> Result<Vec<WordList>, AllocError>
    ensures { IfOk result (λ lists. lists.items ≡ replicate count []) }
{
    let mut lists = Vec::new(alloc);
    for _ in 0..count {
        lists.push(Seq::new(alloc))?;
    }
    Ok(lists)
}

/// The data of each array of these lengths. It takes memory as it reads.
fn each_data<'a>(
    alloc: Global,
    lengths: &[u32],
    bytes: &'a [u8],
) -> Result<(Vec<WordList>, &'a [u8]), Halt>
    ensures { IsExact (λ x. (x.0.items, x.1.now)) halt_cause result (each_data_at lengths.now bytes.now) }
{
    let mut lists = Vec::new(alloc);
    let mut rest = bytes;
    for length in lengths {
        let (words, after) = data(alloc, *length, rest)?;
        lists.push(Seq::from_vec(words))?;
        rest = after;
    }
    Ok((lists, rest))
}

#[tactic(auto, unfolding(crate::specs::Reading::data_at))]
fn data(alloc: Global, elements: u32, bytes: &[u8]) -> Result<(Vec<i32>, &[u8]), Halt>
    ensures { IsExact (λ x. (x.0.items, x.1.now)) halt_cause result (data_at elements bytes.now) }
{
    let (count, rest) = number(bytes)?;
    at_field(bytes, data_count(elements as usize, count as usize))?;
    words(alloc, count, rest)
}

fn words(alloc: Global, count: u32, bytes: &[u8]) -> Result<(Vec<i32>, &[u8]), Halt>
    ensures { IsExact (λ x. (x.0.items, x.1.now)) halt_cause result (words_at count bytes.now) }
{
    let mut words = Vec::new(alloc);
    let mut rest = bytes;
    for place in 0..count {
        let (word, after) = data_word(place + 1 == count, rest)?;
        words.push(word)?;
        rest = after;
    }
    Ok((words, rest))
}

/// A word of an array's data.
#[tactic(auto, unfolding(crate::specs::Reading::data_word_at))]
fn data_word(is_last: bool, bytes: &[u8]) -> Result<(i32, &[u8]), Halt>
    ensures { IsExact (λ x. (x.0, x.1.now)) halt_cause result (data_word_at is_last bytes.now) }
{
    let (word, rest) = word(bytes)?;
    if is_last {
        at_field(bytes, data_tail(word))?;
    }
    Ok((word, rest))
}
