//! Changes of an object's bytes. What a change makes is an object or is not: that is for who reads the bytes to say.

use crate::parts::{Kind, behind_part, behind_tree, between, byte_at, kind_of};
use std::alloc::{AllocError, Global};

/// What is changed at a part of a row.
#[derive(Clone, Copy, Debug, PartialEq, Eq)]
pub(crate) enum Change {
    /// One of the low bits of one of its bytes: a register, a literal, an operator, an array, a row that is gone to.
    Bit { byte: usize, bit: u8 },
    /// The item is left out.
    Dropped,
    /// The item stands there twice.
    Doubled,
    /// The item stands in front of another part, which may be one of another row.
    Moved { to: usize },
    /// The test's sides change their places.
    Turned,
}

/// These pieces, one after the other.
fn joined(alloc: Global, pieces: &[&[u8]]) -> Result<Vec<u8>, AllocError> {
    let mut whole = Vec::new(alloc);
    for piece in pieces {
        whole.extend_from_slice(piece)?;
    }
    Ok(whole)
}

/// The bytes with two pieces exchanged that stand side by side: up to `middle`, and from there on.
fn exchanged(
    alloc: Global,
    bytes: &[u8],
    from: usize,
    middle: usize,
    to: usize,
) -> Result<Vec<u8>, AllocError> {
    let before = between(bytes, 0, from);
    let first = between(bytes, from, middle);
    let second = between(bytes, middle, to);
    let after = between(bytes, to, bytes.len());
    joined(alloc, &[before, second, first, after])
}

/// The bytes with a bit of one of them turned.
fn with_bit(alloc: Global, bytes: &[u8], at: usize, bit: u8) -> Result<Vec<u8>, AllocError> {
    let turned = byte_at(bytes, at) ^ (1 << (bit % 8));
    let before = between(bytes, 0, at);
    let after = between(bytes, at.saturating_add(1), bytes.len());
    joined(alloc, &[before, &[turned], after])
}

/// The bytes with a piece moved to another place, which is not within it.
fn moved(
    alloc: Global,
    bytes: &[u8],
    from: usize,
    end: usize,
    to: usize,
) -> Result<Vec<u8>, AllocError> {
    if to < from {
        exchanged(alloc, bytes, to, from, end)
    } else {
        exchanged(alloc, bytes, from, end, to)
    }
}

/// The bytes with the part at a place changed; where the change is not one of such a part, the bytes as they are.
pub(crate) fn changed(
    alloc: Global,
    bytes: &[u8],
    at: usize,
    change: Change,
) -> Result<Vec<u8>, AllocError> {
    let end = behind_part(bytes, at);
    let rest = between(bytes, end, bytes.len());
    match (kind_of(byte_at(bytes, at)), change) {
        (_, Change::Bit { byte, bit }) => with_bit(alloc, bytes, at.saturating_add(byte), bit),
        (Kind::Item, Change::Dropped) => joined(alloc, &[between(bytes, 0, at), rest]),
        (Kind::Item, Change::Doubled) => joined(
            alloc,
            &[between(bytes, 0, end), between(bytes, at, end), rest],
        ),
        (Kind::Item, Change::Moved { to }) => moved(alloc, bytes, at, end, to),
        (Kind::Test, Change::Turned) => {
            let middle = behind_tree(bytes, end);
            exchanged(alloc, bytes, end, middle, behind_tree(bytes, middle))
        }
        _ => joined(alloc, &[bytes]),
    }
}
