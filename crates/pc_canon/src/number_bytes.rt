//! Numbers, kept in bytes.
ghost use Rattle.std.specs.Prelude.{◌≡◌, ◌+◌, ◌<◌, ◌≤◌, ◌∷◌, ◌++◌, [], length, take, vec_len, vec_capacity, IsTrue, OnOk, OnErr, IfOk};
ghost use Rattle.pc_canon.specs.Bytes.{zigzag, natural_bytes, bytes_of};

use std::alloc::{AllocError, Global};
use std::marker::Model;

/// A list of numbers, kept in bytes: those from -64 to 63 in one each.
#[derive(Drop)]
pub(crate) struct NumberBytes {
    /// The bytes of the numbers.
    bytes: Vec<u8>,
}

impl Model for NumberBytes {
    ghost use Rattle.std.specs.Prelude.{◌≡◌, ℤ, List};
    ghost use Rattle.std.specs.Coded.{codes};
    ghost use Rattle.pc_canon.specs.Bytes.{bytes_of};
    ghost use Rattle.pc_canon.specs.models.Kept.{numbers_in};

    ghost Value = { List ℤ };

    ghost coded = { Prim.hlevel codes };

    ghost view = { λ it. numbers_in it.bytes.items };

    ghost invariant = { λ it. bytes_of (numbers_in it.bytes.items) ≡ it.bytes.items };
}

impl NumberBytes {
    /// No numbers, and room for so many bytes.
    #[tactic(auto, unfolding(crate::specs::models::Kept::numbers_in))]
    pub(crate) fn with_room(alloc: Global, room: usize) -> Result<NumberBytes, AllocError>
        ensures { IfOk result (λ it. it ≡ []) }
    {
        let bytes = Vec::with_capacity(alloc, room)?;
        Ok(NumberBytes { bytes })
    }

    /// Puts a number behind the others.
    #[inline(always)]
    #[tactic(auto, using(crate::proofs::Bytes::added))]
    pub(crate) fn push(&mut self, number: i64) -> Result<(), AllocError>
        ensures { OnOk result (self.new ≡ self.old ++ number ∷ []) }
    {
        let natural = zigzag(number);
        if natural < 128 && self.bytes.len() < self.bytes.capacity() {
            self.bytes.push_reserved(natural as u8);
            return Ok(());
        }
        self.push_digits(number)
    }

    /// Puts two numbers behind the others.
    #[inline(always)]
    #[tactic(auto, using(crate::proofs::Bytes::two))]
    pub(crate) fn push_two(&mut self, first: i64, second: i64) -> Result<(), AllocError>
        ensures { OnOk result (self.new ≡ self.old ++ first ∷ second ∷ []) }
    {
        let one = zigzag(first);
        let two = zigzag(second);
        if one < 128 && two < 128 && has_room(&self.bytes, 2) {
            self.bytes.push_reserved(one as u8);
            self.bytes.push_reserved(two as u8);
            return Ok(());
        }
        self.push_digits(first)?;
        self.push_digits(second)
    }

    /// Puts three numbers behind the others.
    #[tactic(auto, using(crate::proofs::Bytes::three))]
    pub(crate) fn push_three(
        &mut self,
        first: i64,
        second: i64,
        third: i64,
    ) -> Result<(), AllocError>
        ensures { OnOk result (self.new ≡ self.old ++ first ∷ second ∷ third ∷ []) }
    {
        let one = zigzag(first);
        let two = zigzag(second);
        let three = zigzag(third);
        if one < 128 && two < 128 && three < 128 && has_room(&self.bytes, 3) {
            self.bytes.push_reserved(one as u8);
            self.bytes.push_reserved(two as u8);
            self.bytes.push_reserved(three as u8);
            return Ok(());
        }
        self.push_digits(first)?;
        self.push_digits(second)?;
        self.push_digits(third)
    }

    /// Puts a number behind the others, in as many bytes as it takes, and makes room where there is none.
    #[inline(never)]
    #[tactic(auto, using(crate::proofs::Bytes::added))]
    fn push_digits(&mut self, number: i64) -> Result<(), AllocError>
        ensures { OnOk result (self.new ≡ self.old ++ number ∷ []) }
    {
        write_natural(zigzag(number), &mut self.bytes)
    }

    /// The bytes of the numbers, with no spare room where memory allows.
    pub(crate) fn into_bytes(self) -> Vec<u8>
        ensures { result.items ≡ bytes_of self }
    {
        let mut bytes = self.bytes;
        bytes.shrink_to_fit();
        bytes
    }
}

/// A number as a natural one: twice its size, and one less where it is negative.
fn zigzag(number: i64) -> u64
    ensures { result ≡ zigzag number }
{
    if number < 0 {
        2 * ((-1 - number) as u64) + 1
    } else {
        2 * (number as u64)
    }
}

/// Whether so many bytes more fit into the memory of a list.
fn has_room(bytes: &Vec<u8>, count: usize) -> bool
    ensures { IsTrue result → vec_len bytes.now + count ≤ vec_capacity bytes.now }
{
    count <= bytes.capacity() - bytes.len()
}

/// Puts the bytes of a natural number behind others. Where memory runs out, none of them stay.
fn write_natural(natural: u64, bytes: &mut Vec<u8>) -> Result<(), AllocError>
    ensures written { OnOk result (bytes.new.items ≡ bytes.old.items ++ natural_bytes natural) }
    ensures kept { OnErr result (bytes.new.items ≡ bytes.old.items) }
{
    if natural < 16384 && has_room(bytes, 2) {
        write_short(natural, bytes);
        return Ok(());
    }
    let before = bytes.len();
    let written = write_digits(natural, bytes);
    if written.is_err() {
        bytes.truncate(before);
    }
    written
}

/// Puts the bytes of a natural number of at most two bytes behind others, where there is room for them.
#[tactic(auto, using(crate::proofs::Bytes::short))]
fn write_short(natural: u64, bytes: &mut Vec<u8>)
    requires short { natural < 16384 }
    requires room { vec_len bytes.old + 2 ≤ vec_capacity bytes.old }
    ensures { bytes.new.items ≡ bytes.old.items ++ natural_bytes natural }
{
    if natural < 128 {
        bytes.push_reserved(natural as u8);
    } else {
        bytes.push_reserved(128 + (natural % 128) as u8);
        bytes.push_reserved((natural / 128) as u8);
    }
}

/// Puts the bytes of a natural number behind others: seven bits each, the low ones first, and the top bit set
/// in all but the last. Where memory runs out, some of them may stay.
#[inline(never)]
#[tactic(auto, using(crate::proofs::Bytes::digits))]
fn write_digits(natural: u64, bytes: &mut Vec<u8>) -> Result<(), AllocError>
    ensures written { OnOk result (bytes.new.items ≡ bytes.old.items ++ natural_bytes natural) }
    ensures before { take (length bytes.old.items) bytes.new.items ≡ bytes.old.items }
{
    let mut rest = natural;
    while rest >= 128 {
        bytes.push(128 + (rest % 128) as u8)?;
        rest /= 128;
    }
    bytes.push(rest as u8)?;
    Ok(())
}
