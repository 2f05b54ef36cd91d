ghost use Rattle.std.specs.Prelude.{◌≡◌, ℕ, ◌≤◌, ◌<◌, ◌+◌, List, IfSome, IfOk, IfErr, OnOk, is_some, if◌then◌else◌, length};
ghost use Rattle.indexmap.specs.IndexSet.{index_set_len};
ghost use Rattle.pc_word.specs.Exact.{IsExact};
ghost use Rattle.pc_word.specs.SourceLimits.{most_source, most_tokens};
ghost use Rattle.pc_lexer.specs.Cut.{line_behind};
ghost use Rattle.pc_lexer.specs.Spelling.{keyword_of};
ghost use Rattle.pc_lexer.specs.Tokens.{lex_cause, lexed, names_of_text, kind_of, word_kind, symbol_of, names_with, names_after_piece, names_after_word, fault_at};
ghost use Rattle.pc_lexer.specs.models.Steps.{with_token, RefusesToken, spellings};

use crate::bytes::{fresh_after, line_feeds};
use crate::keyword::keyword_of;
use crate::piece::{Shape, Trouble, piece_at};
use crate::{LexError, Token, TokenKind, TokenList};
use indexmap::IndexSet;
use pc_word::{MOST_TOKENS, Seq};
use std::alloc::Global;

/// The tokens of a text, and the names that they use.
#[derive(Debug, Drop)]
pub struct Lexed<'a> {
    /// The tokens, in order, each with the line in which it begins.
    pub tokens: TokenList,
    /// The names, each once, in the order of first use: a name stands at the place that its symbol says.
    pub names: IndexSet<&'a [u8]>,
}

/// A name's symbol. A new name is kept after the others.
fn symbol_of<'a>(names: &mut IndexSet<&'a [u8]>, name: &'a [u8]) -> Result<u32, LexError>
    requires { index_set_len names.old ≤ most_tokens }
    ensures symbol { IfOk result (λ symbol. symbol ≡ symbol_of (spellings names.old.keys) name.now) }
    ensures kept { OnOk result (spellings names.new.keys ≡ names_with (spellings names.old.keys) name.now) }
    ensures refused { IfErr result (λ fault. fault ≡ LexError.Memory) }
    ensures room { index_set_len names.new ≤ index_set_len names.old + 1 }
{
    let (symbol, _) = names.insert_full(name)?;
    Ok(symbol as u32)
}

/// What token a word is.
fn word_kind<'a>(names: &mut IndexSet<&'a [u8]>, word: &'a [u8]) -> Result<TokenKind, LexError>
    requires { index_set_len names.old ≤ most_tokens }
    ensures kind { IfOk result (λ kind. kind ≡ word_kind (spellings names.old.keys) word.now (keyword_of word.now)) }
    ensures kept { OnOk result (spellings names.new.keys ≡ names_after_word (spellings names.old.keys) word.now (keyword_of word.now)) }
    ensures refused { IfErr result (λ fault. fault ≡ LexError.Memory) }
    ensures room { index_set_len names.new ≤ index_set_len names.old + 1 }
{
    match keyword_of(word) {
        Some(key) => Ok(TokenKind::Key { key }),
        None => {
            let symbol = symbol_of(names, word)?;
            Ok(TokenKind::Name { symbol })
        }
    }
}

/// What token a piece is, if it is one. A name is kept.
#[tactic(auto, unfolding(crate::specs::Tokens::kind_of, crate::specs::Tokens::names_after_piece))]
fn kind_of<'a>(
    names: &mut IndexSet<&'a [u8]>,
    spelling: &'a [u8],
    shape: Shape,
) -> Result<Option<TokenKind>, LexError>
    requires { index_set_len names.old ≤ most_tokens }
    ensures kind { IfOk result (λ kind. kind ≡ kind_of (spellings names.old.keys) spelling.now shape) }
    ensures kept { OnOk result (spellings names.new.keys ≡ names_after_piece (spellings names.old.keys) spelling.now shape) }
    ensures refused { IfErr result (λ fault. fault ≡ LexError.Memory) }
    ensures room { IfOk result (λ kind. index_set_len names.new ≤ index_set_len names.old + (if is_some kind then 1 else 0)) }
{
    match shape {
        Shape::Blank => Ok(None),
        Shape::Comment => Ok(None),
        Shape::Skipped => Ok(None),
        Shape::Word => Ok(Some(word_kind(names, spelling)?)),
        Shape::Number { value } => Ok(Some(TokenKind::Number { value })),
        Shape::Mark { mark } => Ok(Some(TokenKind::Mark { mark })),
    }
}

/// The fault where no piece begins, after `count` tokens.
fn fault_at(count: usize, why: Trouble, offset: u32, line: u32) -> LexError
    ensures { (before : List ℕ) → length before ≡ offset → line_behind before ≡ line → result ≡ fault_at count why before }
{
    match why {
        Trouble::OpenComment => LexError::OpenComment { line },
        _ if count >= MOST_TOKENS => LexError::TooManyTokens,
        Trouble::NoPiece => LexError::BadByte { offset },
        Trouble::Misspelt => LexError::BadLiteral { line },
    }
}

/// Appends the token that a piece is, if it is one, to the others.
fn keep(found: &mut TokenList, kind: Option<TokenKind>, line: u32) -> Result<(), LexError>
    ensures kept { OnOk result (found.new ≡ with_token found.old kind line) }
    ensures room { OnOk result (IfSome kind (λ _. length found.old < most_tokens)) }
    ensures refused { IfErr result (RefusesToken found.old kind) }
{
    let Some(kind) = kind else {
        return Ok(());
    };
    if found.len() >= MOST_TOKENS {
        return Err(LexError::TooManyTokens);
    }
    found.push(Token { kind, line })?;
    Ok(())
}

/// The tokens of a text, and the names that they use.
///
/// Tokens are words, numbers and marks, the longest that begin at their place. Blanks, comments and
/// `#include` lines are passed over. The first fault from the left is the answer: `BadByte` where
/// nothing begins, `BadLiteral` at a number that is no `int`, `OpenComment` at a comment that stays
/// open, `TooManyTokens` where a token, a bad byte or a bad number stands after token 65,536.
/// `Memory` alone may come at any text. The time is linear in the text's length; of the text nothing
/// is copied, and the names are borrowed from it.
pub fn lex<'a>(alloc: Global, text: &'a [u8]) -> Result<Lexed<'a>, LexError>
    requires { length text.now ≤ most_source }
    ensures tokens { IsExact (λ found. found.tokens) lex_cause result (lexed text.now) }
    ensures names { IfOk result (λ found. spellings found.names.keys ≡ names_of_text text.now) }
{
    let mut tokens = Seq::new(alloc);
    let mut names = IndexSet::new(alloc);
    let mut offset = 0;
    let mut line: u32 = 1;
    let mut fresh = true;
    while offset < text.len() {
        let rest = &text[offset..];
        let piece = match piece_at(fresh, rest) {
            Ok(piece) => piece,
            Err(why) => return Err(fault_at(tokens.len(), why, offset as u32, line)),
        };
        let spelling = &rest[..piece.length];
        let kind = kind_of(&mut names, spelling, piece.shape)?;
        keep(&mut tokens, kind, line)?;
        offset += piece.length;
        line += line_feeds(spelling) as u32;
        fresh = fresh_after(fresh, spelling);
    }
    Ok(Lexed { tokens, names })
}

/// The tokens of a text, in order, each with the line in which it begins. The faults are those of `lex`.
pub fn tokens(alloc: Global, text: &[u8]) -> Result<TokenList, LexError>
    requires { length text.now ≤ most_source }
    ensures { IsExact (λ tokens. tokens) lex_cause result (lexed text.now) }
{
    let Lexed { tokens, .. } = lex(alloc, text)?;
    Ok(tokens)
}
