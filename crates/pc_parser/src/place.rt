ghost use Rattle.std.specs.Prelude.{◌≡◌, ℕ, ◌+◌, ◌<◌, ◌≤◌, true, false, length, OnSome, IfSome, OnOk, MatchResult};
ghost use Rattle.std.specs.Bool.{OnTrue};
ghost use Rattle.pc_parser.specs.Places.{kind_at, line_at};
ghost use Rattle.pc_parser.specs.models.Tests.{is_mark, is_key, symbol_of};
ghost use Rattle.pc_parser.specs.models.ExpressionParser.{operator_from, sign_of};
ghost use Rattle.pc_parser.specs.models.StatementParser.{assignment_from, step_from, length_of, number_of};

use crate::operator::{Operator, assignment_of, operator_of, prefix_of, step_of};
use crate::outcome::Failure;
use pc_lexer::{Keyword, Mark, Token, TokenKind};
use pc_syntax::{BinaryOp, UnaryOp};

/// What the token at a place is, where there is one.
#[tactic(auto, unfolding(crate::specs::Places::kind_at))]
pub(crate) fn kind_at(tokens: &[Token], place: usize) -> Option<TokenKind>
    ensures value { result ≡ kind_at tokens.now place }
    ensures inside { OnSome result (place < length tokens.now) }
{
    let token = tokens.get(place)?;
    Some(token.kind)
}

/// The line of the token at a place.
#[tactic(auto, unfolding(crate::specs::Places::line_at))]
pub(crate) fn line_at(tokens: &[Token], place: usize) -> u32
    ensures { result ≡ line_at tokens.now place }
{
    match tokens.get(place) {
        Some(token) => token.line,
        None => 0,
    }
}

/// Whether the token at a place is this mark.
pub(crate) fn is_mark(tokens: &[Token], mark: Mark, place: usize) -> bool
    ensures value { result ≡ is_mark mark (kind_at tokens.now place) }
    ensures inside { OnTrue result (place < length tokens.now) }
{
    match kind_at(tokens, place) {
        Some(TokenKind::Mark { mark: found }) => found == mark,
        Some(TokenKind::Key { .. }) => false,
        Some(TokenKind::Name { .. }) => false,
        Some(TokenKind::Number { .. }) => false,
        None => false,
    }
}

/// Whether the token at a place is this keyword.
pub(crate) fn is_key(tokens: &[Token], key: Keyword, place: usize) -> bool
    ensures value { result ≡ is_key key (kind_at tokens.now place) }
    ensures inside { OnTrue result (place < length tokens.now) }
{
    match kind_at(tokens, place) {
        Some(TokenKind::Key { key: found }) => found == key,
        Some(TokenKind::Mark { .. }) => false,
        Some(TokenKind::Name { .. }) => false,
        Some(TokenKind::Number { .. }) => false,
        None => false,
    }
}

/// Goes past a mark.
pub(crate) fn expect(tokens: &[Token], mark: Mark, at: usize) -> Result<(), Failure>
    ensures test { MatchResult result (λ _. is_mark mark (kind_at tokens.now at) ≡ true) (λ failure. (failure ≡ Failure.Syntax at) × (is_mark mark (kind_at tokens.now at) ≡ false)) }
    ensures inside { OnOk result (at < length tokens.now) }
{
    if is_mark(tokens, mark, at) {
        Ok(())
    } else {
        Err(Failure::Syntax { at })
    }
}

/// Goes past a keyword.
pub(crate) fn expect_key(tokens: &[Token], key: Keyword, at: usize) -> Result<(), Failure>
    ensures test { MatchResult result (λ _. is_key key (kind_at tokens.now at) ≡ true) (λ failure. (failure ≡ Failure.Syntax at) × (is_key key (kind_at tokens.now at) ≡ false)) }
    ensures inside { OnOk result (at < length tokens.now) }
{
    if is_key(tokens, key, at) {
        Ok(())
    } else {
        Err(Failure::Syntax { at })
    }
}

/// The binary operator at a place, with its level, where that is this level or a tighter one.
#[tactic(auto, unfolding(crate::specs::models::ExpressionParser::operator_from))]
pub(crate) fn operator_at(tokens: &[Token], level: usize, place: usize) -> Option<(Operator, usize)>
    ensures value { result ≡ operator_from level (kind_at tokens.now place) }
    ensures low { IfSome result (λ found. found.1 ≤ 10) }
    ensures inside { OnSome result (place < length tokens.now) }
{
    match kind_at(tokens, place) {
        Some(TokenKind::Mark { mark }) => match operator_of(mark) {
            Some((operator, rank)) if level <= rank => Some((operator, rank)),
            Some(_) => None,
            None => None,
        },
        Some(TokenKind::Key { .. }) => None,
        Some(TokenKind::Name { .. }) => None,
        Some(TokenKind::Number { .. }) => None,
        None => None,
    }
}

/// The unary operator at a place.
#[tactic(auto, unfolding(crate::specs::models::ExpressionParser::sign_of))]
pub(crate) fn sign_at(tokens: &[Token], place: usize) -> Option<Option<UnaryOp>>
    ensures value { result ≡ sign_of (kind_at tokens.now place) }
    ensures inside { OnSome result (place < length tokens.now) }
{
    match kind_at(tokens, place) {
        Some(TokenKind::Mark { mark }) => prefix_of(mark),
        Some(TokenKind::Key { .. }) => None,
        Some(TokenKind::Name { .. }) => None,
        Some(TokenKind::Number { .. }) => None,
        None => None,
    }
}

/// What the mark at a place assigns by.
#[tactic(auto, unfolding(crate::specs::models::StatementParser::assignment_from))]
pub(crate) fn assignment_at(tokens: &[Token], place: usize) -> Option<Option<BinaryOp>>
    ensures value { result ≡ assignment_from (kind_at tokens.now place) }
    ensures inside { OnSome result (place < length tokens.now) }
{
    match kind_at(tokens, place) {
        Some(TokenKind::Mark { mark }) => assignment_of(mark),
        Some(TokenKind::Key { .. }) => None,
        Some(TokenKind::Name { .. }) => None,
        Some(TokenKind::Number { .. }) => None,
        None => None,
    }
}

/// What the mark at a place steps by.
#[tactic(auto, unfolding(crate::specs::models::StatementParser::step_from))]
pub(crate) fn step_at(tokens: &[Token], place: usize) -> Option<BinaryOp>
    ensures value { result ≡ step_from (kind_at tokens.now place) }
    ensures inside { OnSome result (place < length tokens.now) }
{
    match kind_at(tokens, place) {
        Some(TokenKind::Mark { mark }) => step_of(mark),
        Some(TokenKind::Key { .. }) => None,
        Some(TokenKind::Name { .. }) => None,
        Some(TokenKind::Number { .. }) => None,
        None => None,
    }
}

/// The symbol of the name at a place.
#[tactic(auto, unfolding(crate::specs::models::Tests::symbol_of))]
pub(crate) fn symbol_at(tokens: &[Token], place: usize) -> Option<u32>
    ensures value { result ≡ symbol_of (kind_at tokens.now place) }
    ensures inside { OnSome result (place < length tokens.now) }
{
    match kind_at(tokens, place) {
        Some(TokenKind::Name { symbol }) => Some(symbol),
        Some(TokenKind::Number { .. }) => None,
        Some(TokenKind::Key { .. }) => None,
        Some(TokenKind::Mark { .. }) => None,
        None => None,
    }
}

/// The length that the number at a place gives.
#[tactic(auto, unfolding(crate::specs::models::StatementParser::length_of))]
pub(crate) fn length_at(tokens: &[Token], place: usize) -> Option<u32>
    ensures value { result ≡ length_of (kind_at tokens.now place) }
    ensures inside { OnSome result (place < length tokens.now) }
{
    match kind_at(tokens, place) {
        Some(TokenKind::Number { value }) => u32::try_from(value).ok(),
        Some(TokenKind::Name { .. }) => None,
        Some(TokenKind::Key { .. }) => None,
        Some(TokenKind::Mark { .. }) => None,
        None => None,
    }
}

/// The value of the number at a place.
#[tactic(auto, unfolding(crate::specs::models::StatementParser::number_of))]
pub(crate) fn number_at(tokens: &[Token], place: usize) -> Option<i32>
    ensures value { result ≡ number_of (kind_at tokens.now place) }
    ensures inside { OnSome result (place < length tokens.now) }
{
    match kind_at(tokens, place) {
        Some(TokenKind::Number { value }) => Some(value),
        Some(TokenKind::Name { .. }) => None,
        Some(TokenKind::Key { .. }) => None,
        Some(TokenKind::Mark { .. }) => None,
        None => None,
    }
}
