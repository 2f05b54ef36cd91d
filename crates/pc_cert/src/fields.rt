//! The readers of single fields. Each takes the bytes that are left, and gives a value and the bytes after it.

ghost use Rattle.std.specs.Prelude.{◌≡◌};
ghost use Rattle.std.specs.Int.{w16, w32};
ghost use Rattle.pc_word.specs.Exact.{IsExact};
ghost use Rattle.pc_cert.specs.models.HaltCause.{halt_cause};
ghost use Rattle.pc_cert.specs.Reading.{byte_at, number_at, word_at, magic_at};

use crate::refusal::{Halt, Refusal};
use byteorder::{BigEndian, ByteOrder};

pub fn byte(bytes: &[u8]) -> Result<(u8, &[u8]), Halt>
    ensures { IsExact (λ x. (x.0, x.1.now)) halt_cause result (byte_at bytes.now) }
{
    match bytes {
        [] => Err(Halt::Refused(Refusal::Short)),
        [first, rest @ ..] => Ok((*first, rest)),
    }
}

pub fn half(bytes: &[u8]) -> Result<(u16, &[u8]), Halt>
    ensures { IsExact (λ x. (x.0, x.1.now)) halt_cause result (number_at w16 bytes.now) }
{
    if bytes.len() < 2 {
        return Err(Halt::Refused(Refusal::Short));
    }
    let (field, rest) = bytes.split_at(2);
    Ok((BigEndian::read_u16(field), rest))
}

pub fn number(bytes: &[u8]) -> Result<(u32, &[u8]), Halt>
    ensures { IsExact (λ x. (x.0, x.1.now)) halt_cause result (number_at w32 bytes.now) }
{
    if bytes.len() < 4 {
        return Err(Halt::Refused(Refusal::Short));
    }
    let (field, rest) = bytes.split_at(4);
    Ok((BigEndian::read_u32(field), rest))
}

#[tactic(auto, unfolding(crate::specs::Reading::word_at))]
pub fn word(bytes: &[u8]) -> Result<(i32, &[u8]), Halt>
    ensures { IsExact (λ x. (x.0, x.1.now)) halt_cause result (word_at bytes.now) }
{
    let (number, rest) = number(bytes)?;
    Ok((number.cast_signed(), rest))
}

/// The bytes after `magic`, with which they have to begin.
pub fn magic<'a>(magic: &[u8], bytes: &'a [u8]) -> Result<&'a [u8], Halt>
    ensures { IsExact (λ rest. rest.now) halt_cause result (magic_at magic.now bytes.now) }
{
    let mut rest = bytes;
    for byte in magic {
        let [first, after @ ..] = rest else {
            return Err(Halt::Refused(Refusal::Short));
        };
        if first != byte {
            return Err(Halt::Refused(Refusal::NotMagic));
        }
        rest = after;
    }
    Ok(rest)
}
