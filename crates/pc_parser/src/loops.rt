//! The loops, and the parts of a `for`.
ghost use Rattle.std.specs.Prelude.{◌≡◌, ◌+◌, ◌≤◌, length, IfOk};
ghost use Rattle.pc_syntax.specs.Erasure.{expression_of};
ghost use Rattle.pc_syntax.specs.UnitErasure.{unit_statement_of, unit_list_of, unit_optional_of};
ghost use Rattle.pc_parser.specs.models.StatementParser.{first_at, condition_at, step_at, while_at, do_at, for_body, for_at, statement_below};
ghost use Rattle.pc_parser.specs.models.Parsing.{GivesParsed, AtPlace, UpTo};

use crate::calls::Calls;
use crate::declaration::declaration;
use crate::expression::{EXPRESSION, expression};
use crate::outcome::{Failure, Parsed, within};
use crate::place::{expect, expect_key, is_key, is_mark, line_at};
use crate::simple::{close, simple, test};
use crate::statement::{ended, statement};
use crate::tree::{ForHead, do_tree, for_tree, while_tree};
use pc_lexer::{Keyword, Mark, Token};
use pc_syntax::{Expr, Stmt, StmtList};
use pc_word::Seq;
use std::alloc::Global;

/// Reads a `while`.
#[cycle(statement)]
#[tactic(auto, using(crate::proofs::Budgets::budgets), unfolding(crate::specs::models::StatementParser::while_at))]
pub(crate) fn while_loop(
    alloc: Global,
    tokens: &[Token],
    calls: Calls,
    budget: usize,
    place: usize,
) -> Result<Parsed<Stmt>, Failure>
    requires stands { AtPlace tokens.now budget place }
    requires more { place + 1 ≤ length tokens.now }
    ensures gives { GivesParsed unit_statement_of result (while_at tokens.now (statement_below tokens.now calls budget) budget place) }
    ensures ends { IfOk result (λ parsed. UpTo tokens.now budget parsed.height parsed.next) }
{
    within(2, budget, place)?;
    let condition = test(alloc, tokens, budget - 1, place + 1)?;
    let body = statement(alloc, tokens, calls, budget - 1, condition.next)?;
    let next = body.next;
    let height = condition.height.max(body.height) + 1;
    let line = line_at(tokens, place);
    let tree = while_tree(alloc, line, condition.tree, body.tree)?;
    Ok(Parsed { tree, height, next })
}

/// Reads a `do`.
#[cycle(statement)]
#[tactic(auto, using(crate::proofs::Budgets::budgets), unfolding(crate::specs::models::StatementParser::do_at))]
pub(crate) fn do_loop(
    alloc: Global,
    tokens: &[Token],
    calls: Calls,
    budget: usize,
    place: usize,
) -> Result<Parsed<Stmt>, Failure>
    requires stands { AtPlace tokens.now budget place }
    requires more { place + 1 ≤ length tokens.now }
    ensures gives { GivesParsed unit_statement_of result (do_at tokens.now (statement_below tokens.now calls budget) budget place) }
    ensures ends { IfOk result (λ parsed. UpTo tokens.now budget parsed.height parsed.next) }
{
    within(2, budget, place)?;
    let body = statement(alloc, tokens, calls, budget - 1, place + 1)?;
    expect_key(tokens, Keyword::While, body.next)?;
    let condition = test(alloc, tokens, budget - 1, body.next + 1)?;
    expect(tokens, Mark::Semicolon, condition.next)?;
    let next = condition.next + 1;
    let height = body.height.max(condition.height) + 1;
    let line = line_at(tokens, place);
    let tree = do_tree(alloc, line, body.tree, condition.tree)?;
    Ok(Parsed { tree, height, next })
}

/// Reads a `for`.
#[cycle(statement)]
#[tactic(auto, using(crate::proofs::Budgets::budgets), unfolding(crate::specs::models::StatementParser::for_at))]
pub(crate) fn for_loop(
    alloc: Global,
    tokens: &[Token],
    calls: Calls,
    budget: usize,
    place: usize,
) -> Result<Parsed<Stmt>, Failure>
    requires stands { AtPlace tokens.now budget place }
    requires more { place + 1 ≤ length tokens.now }
    ensures gives { GivesParsed unit_statement_of result (for_at tokens.now calls (statement_below tokens.now calls budget) budget place) }
    ensures ends { IfOk result (λ parsed. UpTo tokens.now budget parsed.height parsed.next) }
{
    within(2, budget, place)?;
    expect(tokens, Mark::LeftParen, place + 1)?;
    let first = first(alloc, tokens, calls, budget - 1, place + 2)?;
    let condition = condition(alloc, tokens, budget - 1, first.next)?;
    let step = step(alloc, tokens, calls, budget - 1, condition.next)?;
    let height = first.height.max(condition.height.max(step.height));
    let head = ForHead {
        line: line_at(tokens, place),
        first: first.tree,
        condition: condition.tree,
        step: step.tree,
    };
    for_body(alloc, tokens, calls, budget, head, height, step.next)
}

/// Reads the body of a `for`, after its `)`.
#[cycle(statement)]
#[tactic(auto, using(crate::proofs::Budgets::budgets), unfolding(crate::specs::models::StatementParser::for_body))]
fn for_body(
    alloc: Global,
    tokens: &[Token],
    calls: Calls,
    budget: usize,
    head: ForHead,
    height: usize,
    place: usize,
) -> Result<Parsed<Stmt>, Failure>
    requires stands { AtPlace tokens.now budget place }
    requires some { 1 ≤ budget }
    requires low { height + 1 ≤ budget }
    ensures gives { GivesParsed unit_statement_of result (for_body tokens.now (statement_below tokens.now calls budget) budget head.line (unit_list_of head.first)
        (expression_of head.condition) (unit_optional_of head.step) height place) }
    ensures ends { IfOk result (λ parsed. UpTo tokens.now budget parsed.height parsed.next) }
{
    let body = statement(alloc, tokens, calls, budget - 1, place)?;
    let next = body.next;
    let height = height.max(body.height) + 1;
    let tree = for_tree(alloc, head, body.tree)?;
    Ok(Parsed { tree, height, next })
}

/// Reads the first part of a `for`, with its `;`.
#[tactic(auto, using(crate::proofs::Budgets::budgets, crate::proofs::Budgets::tree_forms), unfolding(crate::specs::models::StatementParser::first_at))]
fn first(
    alloc: Global,
    tokens: &[Token],
    calls: Calls,
    budget: usize,
    place: usize,
) -> Result<Parsed<StmtList>, Failure>
    requires { AtPlace tokens.now budget place }
    ensures gives { GivesParsed unit_list_of result (first_at tokens.now calls budget place) }
    ensures ends { IfOk result (λ parsed. UpTo tokens.now budget parsed.height parsed.next) }
{
    let mut items = Seq::new(alloc);
    if is_key(tokens, Keyword::Int, place) {
        return declaration(alloc, tokens, calls, budget, items, place);
    }
    if is_mark(tokens, Mark::Semicolon, place) {
        return Ok(Parsed {
            tree: items,
            height: 0,
            next: place + 1,
        });
    }
    let stated = ended(alloc, tokens, calls, budget, place)?;
    items.push(stated.tree)?;
    Ok(Parsed {
        tree: items,
        height: stated.height,
        next: stated.next,
    })
}

/// Reads the condition of a `for`, with its `;`. One that is left out is 1.
#[tactic(auto, using(crate::proofs::Budgets::budgets, crate::proofs::Budgets::tree_forms), unfolding(crate::specs::models::StatementParser::condition_at))]
fn condition(
    alloc: Global,
    tokens: &[Token],
    budget: usize,
    place: usize,
) -> Result<Parsed<Expr>, Failure>
    requires { AtPlace tokens.now budget place }
    ensures gives { GivesParsed expression_of result (condition_at tokens.now budget place) }
    ensures ends { IfOk result (λ parsed. UpTo tokens.now budget parsed.height parsed.next) }
{
    if is_mark(tokens, Mark::Semicolon, place) {
        return Ok(Parsed {
            tree: Expr::Lit { value: 1 },
            height: 0,
            next: place + 1,
        });
    }
    let given = expression(alloc, tokens, budget, EXPRESSION, place)?;
    expect(tokens, Mark::Semicolon, given.next)?;
    Ok(Parsed {
        tree: given.tree,
        height: given.height,
        next: given.next + 1,
    })
}

/// Reads the step of a `for`, with its `)`.
#[tactic(auto, using(crate::proofs::Budgets::budgets, crate::proofs::Budgets::tree_forms), unfolding(crate::specs::models::StatementParser::step_at, crate::specs::models::StatementParser::closed))]
fn step(
    alloc: Global,
    tokens: &[Token],
    calls: Calls,
    budget: usize,
    place: usize,
) -> Result<Parsed<Option<Box<Stmt>>>, Failure>
    requires { AtPlace tokens.now budget place }
    ensures gives { GivesParsed unit_optional_of result (step_at tokens.now calls budget place) }
    ensures ends { IfOk result (λ parsed. UpTo tokens.now budget parsed.height parsed.next) }
{
    if is_mark(tokens, Mark::RightParen, place) {
        return Ok(Parsed {
            tree: None,
            height: 0,
            next: place + 1,
        });
    }
    let open = simple(alloc, tokens, calls, budget, place)?;
    let given = close(tokens, Mark::RightParen, budget, open)?;
    let boxed = Box::new(alloc, given.tree)?;
    Ok(Parsed {
        tree: Some(boxed),
        height: given.height,
        next: given.next,
    })
}
