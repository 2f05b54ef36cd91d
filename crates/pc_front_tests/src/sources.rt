//! Texts as tokens and programs.
ghost use Rattle.std.specs.Prelude.{◌≡◌, ◌≤◌, true, length, IfOk, OnOk};
ghost use Rattle.pc_word.specs.SourceLimits.{most_tokens};

use pc_lexer::{TokenList, tokens};
use pc_parser::parse;
use pc_syntax::Program;
use pc_word::{MOST_SOURCE, MOST_TOKENS};
use std::alloc::Global;
use std::test::Fail;

/// Ends a test whose text is longer than a call takes.
pub(crate) fn require(fits: bool) -> Result<(), Fail>
    ensures { OnOk result (fits ≡ true) }
{
    let fact = if fits { Some(()) } else { None };
    fact.ok_or("a text is too long")?;
    Ok(())
}

/// The tokens of a text.
pub(crate) fn tokens_of(alloc: Global, text: &str) -> Result<TokenList, Fail>
    ensures { IfOk result (λ tokens. length tokens ≤ most_tokens) }
{
    require(text.len() <= MOST_SOURCE)?;
    let tokens = tokens(alloc, text.as_bytes())?;
    require(tokens.len() <= MOST_TOKENS)?;
    Ok(tokens)
}

/// The program that a text is.
pub(crate) fn program_of(alloc: Global, text: &str) -> Result<Program, Fail> {
    let tokens = tokens_of(alloc, text)?;
    Ok(parse(alloc, &tokens)?)
}
