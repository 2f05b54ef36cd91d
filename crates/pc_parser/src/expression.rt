ghost use Rattle.std.specs.Prelude.{◌≡◌, ℕ, ◌+◌, ◌<◌, ◌≤◌, None, length, IfOk};
ghost use Rattle.pc_word.specs.SourceLimits.{most_tokens};
ghost use Rattle.pc_syntax.specs.Erasure.{expression_of};
ghost use Rattle.pc_parser.specs.models.ExpressionParser.{lvalue_named, name_at, literal_at, grouped, input, primary_on, signed, unary_at, infixed_at, choice, climb, operand, expression_at, below};
ghost use Rattle.pc_parser.specs.models.Parsing.{GivesParsed, lvalue_of, AtPlace, UpTo};
ghost use Rattle.pc_parser.specs.Places.{kind_at};

use crate::lvalue::{Lvalue, height_as_tree, lvalue_tree};
use crate::operator::Operator;
use crate::outcome::{Failure, Parsed, within};
use crate::place::{expect, is_mark, kind_at, line_at, operator_at, sign_at};
use crate::tree::{choose, join_trees, prefix};
use pc_lexer::{Keyword, Mark, Token, TokenKind};
use pc_syntax::{Expr, UnaryOp};
use std::alloc::Global;

/// The level of a whole expression. The levels of binary operators are 1 to 10.
pub(crate) const EXPRESSION: usize = 0;

/// The level of the loosest binary operator.
pub(crate) const LOOSEST: usize = 1;

/// The level of an operand of the tightest binary operators.
const UNARY: usize = 11;

/// Reads what stands at a level, of at most the budget's height.
#[cycle(expression)]
#[tactic(auto, using(crate::proofs::Budgets::budgets), unfolding(crate::specs::models::ExpressionParser::part))]
pub(crate) fn expression(
    alloc: Global,
    tokens: &[Token],
    budget: usize,
    level: usize,
    place: usize,
) -> Result<Parsed<Expr>, Failure>
    requires { AtPlace tokens.now budget place }
    ensures gives { GivesParsed expression_of result (expression_at tokens.now budget level place) }
    ensures ends { IfOk result (λ parsed. UpTo tokens.now budget parsed.height parsed.next) }
{
    if level == EXPRESSION {
        let test = operand(alloc, tokens, budget, LOOSEST, place)?;
        return choice(alloc, tokens, budget, test);
    }
    operand(alloc, tokens, budget, level, place)
}

/// Reads the rest of `?:` after its test, where it follows.
#[cycle(expression)]
#[tactic(auto, using(crate::proofs::Budgets::budgets), unfolding(crate::specs::models::ExpressionParser::choice))]
pub(crate) fn choice(
    alloc: Global,
    tokens: &[Token],
    budget: usize,
    test: Parsed<Expr>,
) -> Result<Parsed<Expr>, Failure>
    requires stands { AtPlace tokens.now budget test.next }
    requires low { test.height ≤ budget }
    ensures gives { GivesParsed expression_of result (choice tokens.now (below tokens.now budget) budget (expression_of test.tree) test.height test.next) }
    ensures ends { IfOk result (λ parsed. UpTo tokens.now budget parsed.height parsed.next) }
{
    let question = test.next;
    if !is_mark(tokens, Mark::Question, question) {
        return Ok(test);
    }
    within(test.height + 1, budget, question)?;
    let one = expression(alloc, tokens, budget - 1, EXPRESSION, question + 1)?;
    expect(tokens, Mark::Colon, one.next)?;
    let other = expression(alloc, tokens, budget - 1, EXPRESSION, one.next + 1)?;
    let next = other.next;
    let height = test.height.max(one.height.max(other.height)) + 1;
    let tree = choose(alloc, test.tree, one.tree, other.tree)?;
    Ok(Parsed { tree, height, next })
}

/// Reads an operand of a level: what is tighter, and the operators of the level or a tighter one that
/// follow it. Each of them raises the height, so there are at most `budget` of them.
#[cycle(expression)]
#[tactic(auto, using(crate::proofs::Budgets::budgets), unfolding(crate::specs::models::ExpressionParser::operand))]
fn operand(
    alloc: Global,
    tokens: &[Token],
    budget: usize,
    level: usize,
    place: usize,
) -> Result<Parsed<Expr>, Failure>
    requires { AtPlace tokens.now budget place }
    ensures gives { GivesParsed expression_of result (operand tokens.now (below tokens.now budget) budget level place) }
    ensures ends { IfOk result (λ parsed. UpTo tokens.now budget parsed.height parsed.next) }
{
    let left = unary(alloc, tokens, budget, place)?;
    climb(alloc, tokens, budget, level, left)
}

/// Reads the operators of a level or a tighter one that follow an operand.
#[cycle(expression)]
#[tactic(auto, using(crate::proofs::Budgets::budgets))]
pub(crate) fn climb(
    alloc: Global,
    tokens: &[Token],
    budget: usize,
    level: usize,
    mut left: Parsed<Expr>,
) -> Result<Parsed<Expr>, Failure>
    requires stands { AtPlace tokens.now budget left.next }
    requires low { left.height ≤ budget }
    ensures gives { GivesParsed expression_of result (climb tokens.now (below tokens.now budget) budget level budget (expression_of left.tree) left.height left.next) }
    ensures ends { IfOk result (λ parsed. UpTo tokens.now budget parsed.height parsed.next) }
{
    let mut turns = budget;
    while let Some((operator, rank)) = operator_at(tokens, level, left.next) {
        if turns == 0 {
            return Err(Failure::TooNested { at: left.next });
        }
        turns -= 1;
        left = join(alloc, tokens, budget, left, operator, rank)?;
    }
    Ok(left)
}

/// Reads the operand after an operator, and joins the two.
#[cycle(expression)]
#[tactic(auto, using(crate::proofs::Budgets::budgets), unfolding(crate::specs::models::ExpressionParser::infixed_at))]
fn join(
    alloc: Global,
    tokens: &[Token],
    budget: usize,
    left: Parsed<Expr>,
    operator: Operator,
    rank: usize,
) -> Result<Parsed<Expr>, Failure>
    requires stands { AtPlace tokens.now budget left.next }
    requires low { left.height ≤ budget }
    requires tight { rank ≤ 10 }
    requires more { left.next + 1 ≤ length tokens.now }
    ensures gives { GivesParsed expression_of result (infixed_at tokens.now (below tokens.now budget) budget (expression_of left.tree) left.height left.next (operator, rank)) }
    ensures ends { IfOk result (λ parsed. UpTo tokens.now budget parsed.height parsed.next) }
{
    let at = left.next;
    within(left.height + 1, budget, at)?;
    let right = expression(alloc, tokens, budget - 1, rank + 1, at + 1)?;
    let next = right.next;
    let height = left.height.max(right.height) + 1;
    let line = line_at(tokens, at);
    let tree = join_trees(alloc, operator, line, left.tree, right.tree)?;
    Ok(Parsed { tree, height, next })
}

/// Reads a primary expression, with the unary operators before it.
#[cycle(expression)]
#[tactic(auto, using(crate::proofs::Budgets::budgets), unfolding(crate::specs::models::ExpressionParser::unary_at, crate::specs::models::ExpressionParser::unary_on))]
fn unary(
    alloc: Global,
    tokens: &[Token],
    budget: usize,
    place: usize,
) -> Result<Parsed<Expr>, Failure>
    requires { AtPlace tokens.now budget place }
    ensures gives { GivesParsed expression_of result (unary_at tokens.now (below tokens.now budget) budget place) }
    ensures ends { IfOk result (λ parsed. UpTo tokens.now budget parsed.height parsed.next) }
{
    match sign_at(tokens, place) {
        Some(sign) => signed(alloc, tokens, budget, sign, place),
        None => primary(alloc, tokens, budget, place),
    }
}

/// Reads the operand of a unary operator.
#[cycle(expression)]
#[tactic(auto, using(crate::proofs::Budgets::budgets), unfolding(crate::specs::models::ExpressionParser::signed))]
fn signed(
    alloc: Global,
    tokens: &[Token],
    budget: usize,
    sign: Option<UnaryOp>,
    place: usize,
) -> Result<Parsed<Expr>, Failure>
    requires stands { AtPlace tokens.now budget place }
    requires more { place + 1 ≤ length tokens.now }
    ensures gives { GivesParsed expression_of result (signed tokens.now (below tokens.now budget) budget sign place) }
    ensures ends { IfOk result (λ parsed. UpTo tokens.now budget parsed.height parsed.next) }
{
    within(2, budget, place)?;
    let operand = expression(alloc, tokens, budget - 1, UNARY, place + 1)?;
    let next = operand.next;
    let height = operand.height + 1;
    let tree = prefix(alloc, sign, operand.tree)?;
    Ok(Parsed { tree, height, next })
}

/// Reads a primary expression.
#[cycle(expression)]
#[tactic(auto, using(crate::proofs::Budgets::budgets), unfolding(crate::specs::models::ExpressionParser::primary_on))]
fn primary(
    alloc: Global,
    tokens: &[Token],
    budget: usize,
    place: usize,
) -> Result<Parsed<Expr>, Failure>
    requires { AtPlace tokens.now budget place }
    ensures gives { GivesParsed expression_of result (primary_on tokens.now (below tokens.now budget) budget (kind_at tokens.now place) place) }
    ensures ends { IfOk result (λ parsed. UpTo tokens.now budget parsed.height parsed.next) }
{
    match kind_at(tokens, place) {
        Some(TokenKind::Number { value }) => number(tokens, budget, value, place),
        Some(TokenKind::Name { symbol }) => name(alloc, tokens, budget, symbol, place),
        Some(TokenKind::Key { key }) => {
            if key == Keyword::Read {
                return input(tokens, budget, place);
            }
            Err(Failure::Syntax { at: place })
        }
        Some(TokenKind::Mark { mark }) => {
            if mark == Mark::LeftParen {
                return grouped(alloc, tokens, budget, place);
            }
            Err(Failure::Syntax { at: place })
        }
        None => Err(Failure::Syntax { at: place }),
    }
}

/// A number.
#[tactic(auto, using(crate::proofs::Budgets::budgets, crate::proofs::Budgets::tree_forms), unfolding(crate::specs::models::ExpressionParser::literal_at))]
fn number(
    tokens: &[Token],
    budget: usize,
    value: i32,
    place: usize,
) -> Result<Parsed<Expr>, Failure>
    requires stands { AtPlace tokens.now budget place }
    requires more { place + 1 ≤ length tokens.now }
    ensures ends { IfOk result (λ parsed. UpTo tokens.now budget parsed.height parsed.next) }
    ensures gives { GivesParsed expression_of result (literal_at tokens.now (below tokens.now budget) budget value place) }
{
    within(1, budget, place)?;
    Ok(Parsed {
        tree: Expr::Lit { value },
        height: 1,
        next: place + 1,
    })
}

/// A name, or an element of the array with the name.
#[cycle(expression)]
#[tactic(auto, using(crate::proofs::Budgets::budgets), unfolding(crate::specs::models::ExpressionParser::name_at))]
fn name(
    alloc: Global,
    tokens: &[Token],
    budget: usize,
    symbol: u32,
    place: usize,
) -> Result<Parsed<Expr>, Failure>
    requires stands { AtPlace tokens.now budget place }
    requires more { place + 1 ≤ length tokens.now }
    ensures gives { GivesParsed expression_of result (name_at tokens.now (below tokens.now budget) budget symbol place) }
    ensures ends { IfOk result (λ parsed. UpTo tokens.now budget parsed.height parsed.next) }
{
    within(1, budget, place)?;
    let lvalue = lvalue_named(alloc, tokens, budget, symbol, place)?;
    let next = lvalue.next;
    let height = height_as_tree(&lvalue.tree, lvalue.height);
    let tree = lvalue_tree(alloc, lvalue.tree)?;
    Ok(Parsed { tree, height, next })
}

/// Reads the lvalue at a name: the name, or the element of the array with the name.
#[cycle(expression)]
#[tactic(auto, using(crate::proofs::Budgets::budgets), unfolding(crate::specs::models::ExpressionParser::lvalue_named))]
pub(crate) fn lvalue_named(
    alloc: Global,
    tokens: &[Token],
    budget: usize,
    symbol: u32,
    place: usize,
) -> Result<Parsed<Lvalue>, Failure>
    requires stands { AtPlace tokens.now budget place }
    requires more { place + 1 ≤ length tokens.now }
    ensures gives { GivesParsed lvalue_of result (lvalue_named tokens.now (below tokens.now budget) budget symbol place) }
    ensures ends { IfOk result (λ parsed. UpTo tokens.now budget parsed.height parsed.next) }
{
    let line = line_at(tokens, place);
    let bracket = line_at(tokens, place + 1);
    if !is_mark(tokens, Mark::LeftBracket, place + 1) {
        return Ok(lone_name(symbol, line, place));
    }
    within(2, budget, place + 1)?;
    let index = expression(alloc, tokens, budget - 1, EXPRESSION, place + 2)?;
    expect(tokens, Mark::RightBracket, index.next)?;
    Ok(Parsed {
        tree: Lvalue {
            symbol,
            line,
            index: Some(index.tree),
            bracket,
        },
        height: index.height + 1,
        next: index.next + 1,
    })
}

/// A name as an lvalue. Its height is that of no expression.
fn lone_name(symbol: u32, line: u32, place: usize) -> Parsed<Lvalue>
    requires { place < most_tokens }
    ensures tree { lvalue_of result.tree ≡ record { symbol = symbol; line = line; index = None; bracket = line } }
    ensures height { result.height ≡ 0 }
    ensures next { result.next ≡ place + 1 }
{
    Parsed {
        tree: Lvalue {
            symbol,
            line,
            index: None,
            bracket: line,
        },
        height: 0,
        next: place + 1,
    }
}

/// `read()`.
#[tactic(auto, using(crate::proofs::Budgets::budgets, crate::proofs::Budgets::tree_forms), unfolding(crate::specs::models::ExpressionParser::input))]
fn input(tokens: &[Token], budget: usize, place: usize) -> Result<Parsed<Expr>, Failure>
    requires { AtPlace tokens.now budget place }
    ensures gives { GivesParsed expression_of result (input tokens.now (below tokens.now budget) budget place) }
    ensures ends { IfOk result (λ parsed. UpTo tokens.now budget parsed.height parsed.next) }
{
    within(1, budget, place)?;
    expect(tokens, Mark::LeftParen, place + 1)?;
    expect(tokens, Mark::RightParen, place + 2)?;
    let line = line_at(tokens, place);
    Ok(Parsed {
        tree: Expr::Read { line },
        height: 1,
        next: place + 3,
    })
}

/// Reads an expression in parentheses.
#[cycle(expression)]
#[tactic(auto, using(crate::proofs::Budgets::budgets), unfolding(crate::specs::models::ExpressionParser::grouped))]
fn grouped(
    alloc: Global,
    tokens: &[Token],
    budget: usize,
    place: usize,
) -> Result<Parsed<Expr>, Failure>
    requires stands { AtPlace tokens.now budget place }
    requires more { place + 1 ≤ length tokens.now }
    ensures gives { GivesParsed expression_of result (grouped tokens.now (below tokens.now budget) budget place) }
    ensures ends { IfOk result (λ parsed. UpTo tokens.now budget parsed.height parsed.next) }
{
    within(2, budget, place)?;
    let inner = expression(alloc, tokens, budget - 1, EXPRESSION, place + 1)?;
    expect(tokens, Mark::RightParen, inner.next)?;
    Ok(Parsed {
        tree: inner.tree,
        height: inner.height + 1,
        next: inner.next + 1,
    })
}
