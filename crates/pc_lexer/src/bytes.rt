ghost use Rattle.std.specs.Prelude.{◌≡◌, ◌≤◌, ◌&&◌, ◌||◌, length};
ghost use Rattle.pc_word.specs.Line.{is_line_feed};
ghost use Rattle.pc_lexer.specs.Bytes.{is_blank, is_letter, is_digit, is_word_byte, line_feeds};
ghost use Rattle.pc_lexer.specs.Cut.{fresh_after};

/// Tab, line feed, vertical tab, form feed, carriage return or space.
pub(crate) fn is_blank(byte: u8) -> bool
    ensures { result ≡ is_blank byte }
{
    byte >= b'\t' && byte <= b'\r' || byte == b' '
}

/// What begins a word.
pub(crate) fn is_letter(byte: u8) -> bool
    ensures { result ≡ is_letter byte }
{
    byte >= b'A' && byte <= b'Z' || byte >= b'a' && byte <= b'z' || byte == b'_'
}

/// What begins a number.
pub(crate) fn is_digit(byte: u8) -> bool
    ensures { result ≡ is_digit byte }
{
    byte >= b'0' && byte <= b'9'
}

/// What a word goes on with.
pub(crate) fn is_word_byte(byte: u8) -> bool
    ensures { result ≡ is_word_byte byte }
{
    is_letter(byte) || is_digit(byte)
}

/// How many lines end in the bytes.
pub(crate) fn line_feeds(bytes: &[u8]) -> usize
    ensures value { result ≡ line_feeds bytes.now }
    ensures within { result ≤ length bytes.now }
{
    let mut count = 0;
    for byte in bytes {
        if *byte == b'\n' {
            count += 1;
        }
    }
    count
}

/// Whether the bytes leave a line that has only blanks so far; `fresh` says so of the line that they go
/// on with.
#[tactic(auto, unfolding(crate::specs::Cut::fresh_after))]
pub(crate) fn fresh_after(fresh: bool, bytes: &[u8]) -> bool
    ensures { result ≡ fresh_after fresh bytes.now }
{
    let mut fresh = fresh;
    for byte in bytes {
        fresh = stays_fresh(fresh, *byte);
    }
    fresh
}

/// Whether a line has only blanks so far after one byte more.
fn stays_fresh(fresh: bool, byte: u8) -> bool
    ensures { result ≡ (is_line_feed byte || fresh && is_blank byte) }
{
    if byte == b'\n' {
        return true;
    }
    fresh && is_blank(byte)
}
