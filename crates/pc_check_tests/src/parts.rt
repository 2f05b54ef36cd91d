//! The parts of rows, as they stand in the bytes of an object: items, tests and leaves.

use std::alloc::{AllocError, Global};

/// A byte, or that of a stop where the bytes have ended.
pub(crate) fn byte_at(bytes: &[u8], at: usize) -> u8 {
    bytes.get(at).copied().unwrap_or(0x02)
}

/// The bytes from one place up to another, or none.
pub(crate) fn between(bytes: &[u8], from: usize, to: usize) -> &[u8] {
    bytes.get(from..to).unwrap_or(b"")
}

/// A number of four bytes.
fn number_at(bytes: &[u8], at: usize) -> usize {
    match between(bytes, at, at.saturating_add(4)) {
        [a, b, c, d] => u32::from_be_bytes([*a, *b, *c, *d]) as usize,
        _ => 0,
    }
}

/// Where the operand that begins at a place ends.
fn behind_operand(bytes: &[u8], at: usize) -> usize {
    let size = if byte_at(bytes, at) == 0x00 { 2 } else { 5 };
    at.saturating_add(size)
}

/// Where two operands end.
fn behind_two(bytes: &[u8], at: usize) -> usize {
    behind_operand(bytes, behind_operand(bytes, at))
}

/// What a part is.
#[derive(Clone, Copy, Debug, PartialEq, Eq)]
pub(crate) enum Kind {
    Leaf,
    Test,
    Item,
}

/// What the part is that begins with this byte.
pub(crate) fn kind_of(tag: u8) -> Kind {
    match tag {
        0x10 => Kind::Test,
        0x20..=0x26 => Kind::Item,
        _ => Kind::Leaf,
    }
}

/// Where the part that begins at a place ends: of a test its operand, and not its sides.
pub(crate) fn behind_part(bytes: &[u8], at: usize) -> usize {
    match byte_at(bytes, at) {
        0x01 => at.saturating_add(5),
        0x03 => at.saturating_add(6),
        0x10 | 0x24 => behind_operand(bytes, at.saturating_add(1)),
        0x20 => behind_two(bytes, at.saturating_add(3)),
        0x21 => behind_operand(bytes, at.saturating_add(2)),
        0x22 => behind_operand(bytes, at.saturating_add(3)),
        0x23 => behind_two(bytes, at.saturating_add(2)),
        0x25 | 0x26 => at.saturating_add(2),
        _ => at.saturating_add(1),
    }
}

/// Where the tree that begins at a place ends.
pub(crate) fn behind_tree(bytes: &[u8], from: usize) -> usize {
    let mut at = from;
    let mut open = 1_usize;
    for _ in 0..bytes.len() {
        open = match kind_of(byte_at(bytes, at)) {
            Kind::Leaf => open.saturating_sub(1),
            Kind::Test => open.saturating_add(1),
            Kind::Item => open,
        };
        at = behind_part(bytes, at);
        if open == 0 {
            break;
        }
    }
    at
}

/// Where the number of an object's rows stands: behind its arrays' lengths, and behind the words with which these begin.
fn rows_at(bytes: &[u8]) -> usize {
    let arrays = byte_at(bytes, 7) as usize;
    let lengths = arrays.saturating_mul(4);
    if byte_at(bytes, 3) == 0x31 {
        return lengths.saturating_add(8);
    }
    let mut at = lengths.saturating_add(10);
    for _ in 0..arrays {
        let words = number_at(bytes, at);
        at = at.saturating_add(words.saturating_mul(4)).saturating_add(4);
    }
    at
}

/// Where each part of an object's rows begins.
pub(crate) fn parts_of(alloc: Global, bytes: &[u8]) -> Result<Vec<usize>, AllocError> {
    let head = rows_at(bytes);
    let mut at = head.saturating_add(4);
    let mut open = number_at(bytes, head);
    let mut parts = Vec::new(alloc);
    for _ in 0..bytes.len() {
        if open == 0 {
            break;
        }
        parts.push(at)?;
        open = match kind_of(byte_at(bytes, at)) {
            Kind::Leaf => open.saturating_sub(1),
            Kind::Test => open.saturating_add(1),
            Kind::Item => open,
        };
        at = behind_part(bytes, at);
    }
    Ok(parts)
}
