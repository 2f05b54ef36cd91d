//! Numbers as text: what a program prints, and how its input is read.
ghost use Rattle.std.specs.Prelude.{◌≡◌, ◌≤◌, [], ◌∷◌, length, IfOk, IfErr, unwrap_or};
ghost use Rattle.pc_word.specs.MachineLimits.{most_input};
ghost use Rattle.pc_word.specs.NumberText.{is_separator, first_word, number_of, numbers_in, text_of, IsNumbersRefusal};

use crate::WordList;
use std::alloc::{AllocError, Global};
use std::marker::Model;
use thiserror::Error;

/// Why a text is no list of numbers.
#[derive(Clone, Copy, Debug, PartialEq, Eq, Error)]
pub enum NumbersError {
    /// A word of the text spells no number that is a word of the language. `offset` is the place
    /// of its first byte, and no word before it is such a one.
    #[error("not a number at offset {offset}")]
    NotNumber { offset: u32 },
    /// There is no memory for the list.
    #[error("out of memory")]
    Memory,
}

impl From<AllocError> for NumbersError {
    ghost use Rattle.pc_word.specs.declared.number_text.NumbersError.TheVariants.{Memory};

    ghost from_gives = { λ _ e. e ≡ Memory };

    fn from(_error: AllocError) -> NumbersError {
        NumbersError::Memory
    }
}

fn is_separator(byte: u8) -> bool
    ensures { result ≡ is_separator byte }
{
    matches!(byte, b' ' | b'\t' | b'\r' | b'\n')
}

/// The word that a text begins with, which is empty where the text begins with a blank.
fn first_word(bytes: &[u8]) -> &[u8]
    ensures word { result.now ≡ first_word bytes.now }
    ensures within { length result.now ≤ length bytes.now }
{
    for (len, byte) in bytes.iter().enumerate() {
        if is_separator(*byte) {
            return &bytes[..len];
        }
    }
    bytes
}

/// The number that a word of a text spells.
fn number_of(word: &[u8]) -> Option<i32>
    ensures { result ≡ number_of word.now }
{
    match std::str::from_utf8(word) {
        Ok(text) => text.parse::<i32>().ok(),
        Err(_) => None,
    }
}

/// The numbers of a text: words between spaces, tabs, carriage returns and line feeds, each an
/// optional `+` or `-` and one or more decimal digits, with a value from -2147483648 to
/// 2147483647. Leading zeros are allowed. It takes time in proportion to the text's length.
pub fn read_numbers(alloc: Global, bytes: &[u8]) -> Result<WordList, NumbersError>
    requires { length bytes.now ≤ most_input }
    ensures ok { IfOk result (λ numbers. numbers_in bytes.now ≡ Ok numbers) }
    ensures err { IfErr result (IsNumbersRefusal bytes.now) }
{
    let mut numbers = WordList::new(alloc);
    let mut at = 0;
    while at < bytes.len() {
        if is_separator(bytes[at]) {
            at += 1;
        } else {
            let word = first_word(&bytes[at..]);
            match number_of(word) {
                Some(number) => numbers.push(number)?,
                None => return Err(NumbersError::NotNumber { offset: at as u32 }),
            }
            at += word.len();
        }
    }
    Ok(numbers)
}

/// The line that a program prints for a number, held without memory: its decimal digits, with `-`
/// before them where it is negative, and a line feed.
#[derive(Drop)]
pub struct NumberLine {
    bytes: [u8; LINE_ROOM],
    start: usize,
}

/// The length of the longest line, `-2147483648` and a line feed.
const LINE_ROOM: usize = 12;

impl Model for NumberLine {
    ghost use Rattle.std.specs.Prelude.{◌≤◌, ℕ, List, drop};

    ghost Value = { List ℕ };

    ghost view = { λ it. drop it.start it.bytes };

    ghost invariant = { λ it. it.start ≤ 12 };
}

impl NumberLine {
    /// The line of a number. It takes no memory.
    pub fn new(number: i32) -> NumberLine
        ensures { result ≡ text_of (number ∷ []) }
    {
        let mut bytes = [b'\n'; LINE_ROOM];
        let digits = itoa::write_digits(u64::from(number.unsigned_abs()), &mut bytes, 11);
        if number >= 0 {
            return NumberLine {
                bytes,
                start: digits,
            };
        }
        bytes[digits - 1] = b'-';
        NumberLine {
            bytes,
            start: digits - 1,
        }
    }

    /// The bytes of the line.
    pub fn as_slice(&self) -> &[u8]
        ensures { result.now ≡ self.now }
    {
        &self.bytes[self.start..]
    }
}
