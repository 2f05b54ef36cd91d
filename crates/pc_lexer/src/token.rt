use crate::{Keyword, Mark};
use pc_word::Seq;

/// What a token is.
#[derive(Clone, Copy, Debug, PartialEq, Eq)]
pub enum TokenKind {
    /// A word that is no keyword. Symbols number the names of a text from 0, in the order of first use.
    Name { symbol: u32 },
    /// A number, with its value.
    Number { value: i32 },
    /// A keyword.
    Key { key: Keyword },
    /// A punctuator.
    Mark { mark: Mark },
}

/// A token, and the line in which it begins, counted from 1.
#[derive(Clone, Copy, Debug, PartialEq, Eq)]
pub struct Token {
    pub kind: TokenKind,
    pub line: u32,
}

/// The tokens of a text, in order.
pub type TokenList = Seq<Token>;
