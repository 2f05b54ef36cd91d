//! The readers of words, marks, numbers and the ends of lines. Each takes the bytes of a line that are left, and
//! gives a value and the bytes after it.

ghost use Rattle.std.specs.Prelude.{◌≡◌, ◌≤◌, IfOk, IfSome};
ghost use Rattle.pc_word.specs.Exact.{IsExact};
ghost use Rattle.pc_assembly.specs.models.Causes.{halt_cause};
ghost use Rattle.pc_assembly.specs.Words.{is_next, is_alone, is_mark, is_end, word_here, word_at, mark_here, mark_at, end_at, digits_value, numeral_value, number_here, number_at, number_is};

use crate::bytes::{Class, after_run, cut_run, run, unblank};
use crate::error::{Expected, Halt, unexpected};
use crate::spelling::{Mark, Word};

/// Whether a word stands at the beginning.
pub fn is_next(word: Word, bytes: &[u8]) -> bool
    ensures { result ≡ is_next word bytes.now }
{
    word.spelling() == run(Class::Letter, bytes)
}

/// Whether a word stands at the beginning, and no number right after it.
pub fn is_alone(word: Word, bytes: &[u8]) -> bool
    ensures { result ≡ is_alone word bytes.now }
{
    word.spelling() == run(Class::Name, bytes)
}

/// Whether a mark stands at the beginning.
pub fn is_mark(mark: Mark, bytes: &[u8]) -> bool
    ensures { result ≡ is_mark mark bytes.now }
{
    match bytes {
        [] => false,
        [byte, ..] => *byte == mark.byte(),
    }
}

/// Whether the line ends here, or a comment begins.
pub fn is_end(bytes: &[u8]) -> bool
    ensures { result ≡ is_end bytes.now }
{
    match bytes {
        [] => true,
        [b';', ..] => true,
        _ => bytes.starts_with(b"//"),
    }
}

/// A word that begins here, for which a complaint says `expected`.
pub fn word_here(expected: Expected, word: Word, bytes: &[u8]) -> Result<&[u8], Halt>
    ensures { IsExact (λ rest. rest.now) halt_cause result (word_here expected word bytes.now) }
{
    if is_next(word, bytes) {
        return Ok(after_run(Class::Letter, bytes));
    }
    Err(unexpected(bytes, expected))
}

/// A word after blanks.
pub fn word(word: Word, bytes: &[u8]) -> Result<&[u8], Halt>
    ensures { IsExact (λ rest. rest.now) halt_cause result (word_at word bytes.now) }
{
    word_here(Expected::Word(word), word, unblank(bytes))
}

fn mark_here(mark: Mark, bytes: &[u8]) -> Result<&[u8], Halt>
    ensures { IsExact (λ rest. rest.now) halt_cause result (mark_here mark bytes.now) }
{
    let [byte, rest @ ..] = bytes else {
        return Err(unexpected(bytes, Expected::Mark(mark)));
    };
    if *byte == mark.byte() {
        return Ok(rest);
    }
    Err(unexpected(bytes, Expected::Mark(mark)))
}

/// A mark after blanks.
pub fn mark(mark: Mark, bytes: &[u8]) -> Result<&[u8], Halt>
    ensures { IsExact (λ rest. rest.now) halt_cause result (mark_at mark bytes.now) }
{
    mark_here(mark, unblank(bytes))
}

/// The end of the line, after blanks; a comment may begin there.
pub fn end(bytes: &[u8]) -> Result<(), Halt>
    ensures { IsExact (λ x. x) halt_cause result (end_at bytes.now) }
{
    let bytes = unblank(bytes);
    if is_end(bytes) {
        return Ok(());
    }
    Err(unexpected(bytes, Expected::LineEnd))
}

/// The number that digits spell, if it is not above the most.
fn digits_value(most: u32, digits: &[u8]) -> Option<u32>
    ensures value { result ≡ digits_value most 0 digits.now }
    ensures bound { IfSome result (λ value. value ≤ most) }
{
    let mut value = 0;
    for digit in digits {
        let next = u64::from(value) * 10 + u64::from(digit.saturating_sub(b'0'));
        if next > u64::from(most) {
            return None;
        }
        value = next as u32;
    }
    Some(value)
}

/// The number that one or more digits spell, if it is not above the most.
fn numeral_value(most: u32, digits: &[u8]) -> Option<u32>
    ensures value { result ≡ numeral_value most digits.now }
    ensures bound { IfSome result (λ value. value ≤ most) }
{
    match digits {
        [] => None,
        _ => digits_value(most, digits),
    }
}

/// A number that begins here and is not above the most, for which a complaint says `expected`.
pub fn number_here(most: u32, expected: Expected, bytes: &[u8]) -> Result<(u32, &[u8]), Halt>
    ensures read { IsExact (λ x. (x.0, x.1.now)) halt_cause result (number_here most expected bytes.now) }
    ensures bound { IfOk result (λ x. x.0 ≤ most) }
{
    let (digits, rest) = cut_run(Class::Digit, bytes);
    match numeral_value(most, digits) {
        Some(value) => Ok((value, rest)),
        None => Err(unexpected(bytes, expected)),
    }
}

/// A number after blanks.
pub fn number(most: u32, expected: Expected, bytes: &[u8]) -> Result<(u32, &[u8]), Halt>
    ensures read { IsExact (λ x. (x.0, x.1.now)) halt_cause result (number_at most expected bytes.now) }
    ensures bound { IfOk result (λ x. x.0 ≤ most) }
{
    number_here(most, expected, unblank(bytes))
}

/// This number, which is not above the most.
#[tactic(auto, unfolding(crate::specs::Words::number_is))]
pub fn number_is(most: u32, due: u32, expected: Expected, bytes: &[u8]) -> Result<&[u8], Halt>
    ensures read { IsExact (λ rest. rest.now) halt_cause result (number_is most due expected bytes.now) }
    ensures bound { IfOk result (λ rest. due ≤ most) }
{
    let (value, rest) = number_here(most, expected, bytes)?;
    if value == due {
        return Ok(rest);
    }
    Err(unexpected(bytes, expected))
}
