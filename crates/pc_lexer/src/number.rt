ghost use Rattle.std.specs.Prelude.{◌≡◌, ◌≤◌, ◌&&◌, ◌||◌, false, length, IfSome};
ghost use Rattle.pc_lexer.specs.Bytes.{is_word_byte};
ghost use Rattle.pc_lexer.specs.Number.{is_exponent, is_sign, number_length, digit_value, int_of_digits, number_value, int_max};

use crate::bytes::{is_digit, is_word_byte};

/// The greatest `int`.
const INT_MAX: u64 = 0x7fff_ffff;

fn is_exponent(byte: u8) -> bool
    ensures { result ≡ is_exponent byte }
{
    byte == b'e' || byte == b'E' || byte == b'p' || byte == b'P'
}

fn is_sign(byte: u8) -> bool
    ensures { result ≡ is_sign byte }
{
    byte == b'+' || byte == b'-'
}

/// Whether a byte belongs to a number; `exponent` says whether it stands after an exponent's letter.
fn belongs(exponent: bool, byte: u8) -> bool
    ensures { result ≡ (is_word_byte byte || exponent && is_sign byte) }
{
    if exponent && is_sign(byte) {
        return true;
    }
    is_word_byte(byte)
}

/// How many bytes of `text` belong to a number whose first digit stands before it.
#[tactic(auto, unfolding(crate::specs::Number::number_length))]
pub(crate) fn number_length(text: &[u8]) -> usize
    ensures value { result ≡ number_length false text.now }
    ensures within { result ≤ length text.now }
{
    let mut exponent = false;
    for (at, byte) in text.iter().enumerate() {
        if !belongs(exponent, *byte) {
            return at;
        }
        exponent = is_exponent(*byte);
    }
    text.len()
}

/// What a byte counts as a digit of a base up to 16; 16 for one that is no such digit.
fn digit_value(byte: u8) -> u64
    ensures value { result ≡ digit_value byte }
    ensures bound { result ≤ 16 }
{
    if is_digit(byte) {
        u64::from(byte - b'0')
    } else if byte >= b'a' && byte <= b'f' {
        u64::from(byte - b'a') + 10
    } else if byte >= b'A' && byte <= b'F' {
        u64::from(byte - b'A') + 10
    } else {
        16
    }
}

/// The `int` that one or more digits of a base spell.
#[tactic(auto, using(crate::proofs::Digits::too_great), unfolding(crate::specs::Number::digits_value))]
fn int_of_digits(base: u64, digits: &[u8]) -> Option<u32>
    requires some { 1 ≤ base }
    requires few { base ≤ 16 }
    ensures value { result ≡ int_of_digits base digits.now }
    ensures bound { IfSome result (λ value. value ≤ int_max) }
{
    if digits.is_empty() {
        return None;
    }
    let mut value = 0;
    for byte in digits {
        let digit = digit_value(*byte);
        if digit >= base {
            return None;
        }
        value = value * base + digit;
        if value > INT_MAX {
            return None;
        }
    }
    Some(value as u32)
}

/// What a number's spelling stands for: hexadecimal after `0x` or `0X`, octal after another `0`
/// that is not alone, else decimal (C17 6.4.4.1, without suffixes). `None` where it is misspelt or
/// no `int`.
#[tactic(auto, unfolding(crate::specs::Number::number_value))]
pub(crate) fn number_value(spelling: &[u8]) -> Option<u32>
    ensures value { result ≡ number_value spelling.now }
    ensures bound { IfSome result (λ value. value ≤ int_max) }
{
    if spelling.starts_with(b"0x") || spelling.starts_with(b"0X") {
        int_of_digits(16, &spelling[2..])
    } else if spelling.starts_with(b"0") && spelling.len() > 1 {
        int_of_digits(8, &spelling[1..])
    } else {
        int_of_digits(10, spelling)
    }
}
