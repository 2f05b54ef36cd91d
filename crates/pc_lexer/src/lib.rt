//! The lexer: a source text becomes a list of tokens.
#![tactic(auto)]

mod bytes;
mod error;
mod keyword;
mod laws;
mod lexing;
mod mark;
mod number;
mod piece;
mod token;

pub use error::LexError;
pub use keyword::Keyword;
pub use laws::lexer_laws;
pub use lexing::{Lexed, lex, tokens};
pub use mark::Mark;
pub use token::{Token, TokenKind, TokenList};
