//! The lines of a text, and places in it.

ghost use Rattle.std.specs.Prelude.{◌≡◌, ◌∷◌, ◌<◌, length};
ghost use Rattle.pc_assembly.specs.Text.{lines_of, place_of, line_start};

use crate::bytes::{Class, cut_run};
use crate::error::Place;

/// The first line of a text, and what stands after it and its line feed.
pub fn cut_line(text: &[u8]) -> (&[u8], &[u8])
    requires { 0 < length text.now }
    ensures lines { lines_of text.now ≡ result.0.now ∷ lines_of result.1.now }
    ensures shorter { length result.1.now < length text.now }
{
    let (line, rest) = cut_run(Class::InLine, text);
    match rest {
        [] => (line, rest),
        [_, after @ ..] => (line, after),
    }
}

/// The place in a line at which so many bytes of it are left.
pub fn place_of(number: usize, line: &[u8], left: usize) -> Place
    ensures { result ≡ place_of number line.now left }
{
    Place {
        line: number,
        column: line.len().saturating_sub(left) + 1,
    }
}

/// The first column of a line.
pub fn line_start(number: usize) -> Place
    ensures { result ≡ line_start number }
{
    Place {
        line: number,
        column: 1,
    }
}
