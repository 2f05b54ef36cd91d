ghost use Rattle.std.specs.Prelude.{◌≡◌, ◌≤◌, ◌<◌, false, length, IfSome};
ghost use Rattle.std.specs.List.{prefix_len};
ghost use Rattle.pc_lexer.specs.Bytes.{is_word_byte};
ghost use Rattle.pc_lexer.specs.Piece.{line_length, comment_length, is_inner_blank, goes_on, include_length, block_comment_at, skipped_line_at, number_piece_at, mark_piece_at, piece_at};

use crate::Mark;
use crate::bytes::{is_blank, is_digit, is_letter, is_word_byte};
use crate::mark::mark_at;
use crate::number::{number_length, number_value};

/// What a piece of a text is.
#[derive(Clone, Copy)]
pub enum Shape {
    Blank,
    Comment,
    Skipped,
    Word,
    Number { value: i32 },
    Mark { mark: Mark },
}

/// A piece of a text: what it is, and how many bytes it has.
#[derive(Clone, Copy)]
pub struct Piece {
    pub shape: Shape,
    pub length: usize,
}

/// Why no piece begins at a place.
#[derive(Clone, Copy)]
pub enum Trouble {
    NoPiece,
    Misspelt,
    OpenComment,
}

/// How long a word is whose first letter begins the text.
fn word_length(text: &[u8]) -> usize
    ensures value { result ≡ prefix_len is_word_byte text.now }
    ensures within { result ≤ length text.now }
{
    for (at, byte) in text.iter().enumerate() {
        if !is_word_byte(*byte) {
            return at;
        }
    }
    text.len()
}

/// How many bytes the text has up to the end of its first line.
fn line_length(text: &[u8]) -> usize
    ensures value { result ≡ line_length text.now }
    ensures within { result ≤ length text.now }
{
    for (at, byte) in text.iter().enumerate() {
        if *byte == b'\n' {
            return at;
        }
    }
    text.len()
}

/// How many bytes the text has up to the end of its first `*/`.
#[tactic(auto, using(crate::proofs::Comments::comment_step), unfolding(crate::specs::Piece::comment_length))]
fn comment_length(text: &[u8]) -> Option<usize>
    ensures value { result ≡ comment_length false text.now }
    ensures within { IfSome result (λ n. n ≤ length text.now) }
{
    let mut star = false;
    for (at, byte) in text.iter().enumerate() {
        if star && *byte == b'/' {
            return Some(at + 1);
        }
        star = *byte == b'*';
    }
    None
}

/// How many blanks the text begins with, a line feed not among them.
fn inner_blanks(text: &[u8]) -> usize
    ensures value { result ≡ prefix_len is_inner_blank text.now }
    ensures within { result ≤ length text.now }
{
    for (at, byte) in text.iter().enumerate() {
        if !is_blank(*byte) || *byte == b'\n' {
            return at;
        }
    }
    text.len()
}

/// Whether a word goes on with the text.
fn goes_on(text: &[u8]) -> bool
    ensures { result ≡ goes_on text.now }
{
    match text.first() {
        Some(byte) => is_word_byte(*byte),
        None => false,
    }
}

/// How many bytes after a `#` are skipped: blanks, the whole word `include` and the rest of the line.
#[tactic(auto, unfolding(crate::specs::Piece::include_length))]
fn include_length(text: &[u8]) -> Option<usize>
    ensures value { result ≡ include_length text.now }
    ensures within { IfSome result (λ n. n ≤ length text.now) }
{
    let blanks = inner_blanks(text);
    let word = &text[blanks..];
    if !word.starts_with(b"include") {
        return None;
    }
    let after = &word[7..];
    if goes_on(after) {
        return None;
    }
    Some(blanks + 7 + line_length(after))
}

/// The number that the text begins with.
fn number(text: &[u8]) -> Result<Piece, Trouble>
    requires some { 0 < length text.now }
    ensures { result ≡ number_piece_at text.now }
{
    let length = 1 + number_length(&text[1..]);
    match number_value(&text[..length]) {
        Some(value) => Ok(Piece {
            shape: Shape::Number {
                value: value as i32,
            },
            length,
        }),
        None => Err(Trouble::Misspelt),
    }
}

/// The line that is skipped from a `#` on, which the text begins with.
fn skipped_line(text: &[u8]) -> Result<Piece, Trouble>
    requires some { 0 < length text.now }
    ensures { result ≡ skipped_line_at text.now }
{
    match include_length(&text[1..]) {
        Some(length) => Ok(Piece {
            shape: Shape::Skipped,
            length: 1 + length,
        }),
        None => Err(Trouble::NoPiece),
    }
}

/// The comment up to its `*/` that the text begins with.
fn block_comment(text: &[u8]) -> Result<Piece, Trouble>
    requires two { 2 ≤ length text.now }
    ensures { result ≡ block_comment_at text.now }
{
    match comment_length(&text[2..]) {
        Some(length) => Ok(Piece {
            shape: Shape::Comment,
            length: 2 + length,
        }),
        None => Err(Trouble::OpenComment),
    }
}

/// The mark that the text begins with.
fn mark(text: &[u8]) -> Result<Piece, Trouble>
    ensures { result ≡ mark_piece_at text.now }
{
    match mark_at(text) {
        Some(mark) => Ok(Piece {
            shape: Shape::Mark { mark },
            length: mark.spelling().len(),
        }),
        None => Err(Trouble::NoPiece),
    }
}

/// The piece that begins the text, or why none does. `fresh` says whether only blanks stand before
/// it in its line.
#[tactic(auto, unfolding(crate::specs::Piece::piece_at))]
pub(crate) fn piece_at(fresh: bool, text: &[u8]) -> Result<Piece, Trouble>
    requires { 0 < length text.now }
    ensures { result ≡ piece_at fresh text.now }
{
    let first = text[0];
    if is_blank(first) {
        Ok(Piece {
            shape: Shape::Blank,
            length: 1,
        })
    } else if is_letter(first) {
        Ok(Piece {
            shape: Shape::Word,
            length: word_length(text),
        })
    } else if is_digit(first) {
        number(text)
    } else if first == b'#' {
        if fresh {
            skipped_line(text)
        } else {
            Err(Trouble::NoPiece)
        }
    } else if text.starts_with(b"//") {
        Ok(Piece {
            shape: Shape::Comment,
            length: line_length(text),
        })
    } else if text.starts_with(b"/*") {
        block_comment(text)
    } else {
        mark(text)
    }
}
