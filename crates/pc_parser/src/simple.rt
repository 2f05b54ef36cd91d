ghost use Rattle.std.specs.Prelude.{◌≡◌, ℕ, pos, ◌+◌, ◌-◌, ◌<◌, ◌≤◌, Some, length, IfOk};
ghost use Rattle.pc_word.specs.SourceLimits.{most_tokens};
ghost use Rattle.pc_syntax.specs.Erasure.{expression_of};
ghost use Rattle.pc_syntax.specs.UnitErasure.{unit_statement_of};
ghost use Rattle.pc_parser.specs.Places.{kind_at, line_at};
ghost use Rattle.pc_syntax.specs.Source.{Literal};
ghost use Rattle.pc_syntax.specs.Unit.{Eval};
ghost use Rattle.pc_parser.specs.Statements.{assigned};
ghost use Rattle.pc_parser.specs.models.StatementParser.{parenthesized_at, closed_behind, name_budget, lvalue_at, evaluation, evaluation_from, print_at, step_before, assignment, behind_lvalue};
ghost use Rattle.pc_parser.specs.models.StatementParser.{assigning, after_lvalue, named, marked, simple_on, simple_at, assignment_from, step_from};
ghost use Rattle.pc_parser.specs.models.CallParser.{settled_at, value_at};
ghost use Rattle.pc_parser.specs.models.Outcome.{after};
ghost use Rattle.pc_parser.specs.models.Parsing.{GivesParsed, lvalue_of, AtPlace, UpTo};

use crate::call::{CallHead, call, call_for, callable, called_at, opens_call, value};
use crate::calls::Calls;
use crate::expression::{EXPRESSION, LOOSEST, choice, climb, expression, lvalue_named};
use crate::lvalue::{Lvalue, height_as_tree, lvalue_tree};
use crate::operator::step_of;
use crate::outcome::{Failure, Parsed, within};
use crate::place::{assignment_at, expect, kind_at, line_at, step_at, symbol_at};
use pc_lexer::{Keyword, Mark, Token, TokenKind};
use pc_syntax::{BinaryOp, Expr, Stmt, Target};
use std::alloc::Global;

/// Reads an expression in the parentheses that a keyword wants.
#[tactic(auto, using(crate::proofs::Budgets::budgets), unfolding(crate::specs::models::StatementParser::parenthesized_at))]
pub(crate) fn test(
    alloc: Global,
    tokens: &[Token],
    budget: usize,
    place: usize,
) -> Result<Parsed<Expr>, Failure>
    requires { AtPlace tokens.now budget place }
    ensures gives { GivesParsed expression_of result (parenthesized_at tokens.now budget place) }
    ensures ends { IfOk result (λ parsed. UpTo tokens.now budget parsed.height parsed.next) }
{
    expect(tokens, Mark::LeftParen, place)?;
    let inner = expression(alloc, tokens, budget, EXPRESSION, place + 1)?;
    expect(tokens, Mark::RightParen, inner.next)?;
    Ok(Parsed {
        tree: inner.tree,
        height: inner.height,
        next: inner.next + 1,
    })
}

/// Goes past the mark after a simple statement. Its height is compared only here: a lone name is one
/// higher than `x++;`, and is told apart from it by what follows.
#[tactic(auto, using(crate::proofs::Budgets::budgets), unfolding(crate::specs::models::StatementParser::closed_behind))]
pub(crate) fn close(
    tokens: &[Token],
    mark: Mark,
    budget: usize,
    statement: Parsed<Stmt>,
) -> Result<Parsed<Stmt>, Failure>
    requires { AtPlace tokens.now budget statement.next }
    ensures gives { GivesParsed unit_statement_of result (closed_behind tokens.now mark budget (unit_statement_of statement.tree) statement.height statement.next) }
    ensures ends { IfOk result (λ parsed. UpTo tokens.now budget parsed.height parsed.next) }
{
    let at = statement.next;
    expect(tokens, mark, at)?;
    within(statement.height, budget, at)?;
    Ok(Parsed {
        tree: statement.tree,
        height: statement.height,
        next: at + 1,
    })
}

/// The budget of the expression that a name begins in a statement. A lone name is looked at with a
/// budget of 1 even where the statement's is 1, since `x++;` has the height 1.
fn name_budget(budget: usize) -> usize
    requires { 1 ≤ budget }
    ensures { result ≡ name_budget budget }
{
    (budget - 1).max(1)
}

/// Reads an lvalue.
#[tactic(auto, using(crate::proofs::Budgets::budgets), unfolding(crate::specs::models::StatementParser::lvalue_at, crate::specs::models::StatementParser::lvalue_on))]
fn lvalue(
    alloc: Global,
    tokens: &[Token],
    budget: usize,
    place: usize,
) -> Result<Parsed<Lvalue>, Failure>
    requires stands { AtPlace tokens.now budget place }
    requires some { 1 ≤ budget }
    ensures gives { GivesParsed lvalue_of result (lvalue_at tokens.now budget place) }
    ensures ends { IfOk result (λ parsed. UpTo tokens.now (name_budget budget) parsed.height parsed.next) }
{
    match symbol_at(tokens, place) {
        Some(symbol) => lvalue_named(alloc, tokens, name_budget(budget), symbol, place),
        None => Err(Failure::Syntax { at: place }),
    }
}

/// An expression as a statement that begins at a place.
#[tactic(auto, using(crate::proofs::Budgets::tree_forms))]
fn evaluated(tokens: &[Token], place: usize, value: Parsed<Expr>) -> Parsed<Stmt>
    requires { value.height < most_tokens }
    ensures tree { unit_statement_of result.tree ≡ Eval (line_at tokens.now place) (expression_of value.tree) }
    ensures height { result.height ≡ value.height + 1 }
    ensures next { result.next ≡ value.next }
{
    let line = line_at(tokens, place);
    Parsed {
        tree: Stmt::Eval {
            line,
            value: value.tree,
        },
        height: value.height + 1,
        next: value.next,
    }
}

/// Reads an expression as a statement.
#[tactic(auto, using(crate::proofs::Budgets::budgets), unfolding(crate::specs::models::StatementParser::evaluation))]
fn evaluation(
    alloc: Global,
    tokens: &[Token],
    budget: usize,
    place: usize,
) -> Result<Parsed<Stmt>, Failure>
    requires { AtPlace tokens.now budget place }
    ensures gives { GivesParsed unit_statement_of result (evaluation tokens.now budget place) }
    ensures ends { IfOk result (λ parsed. UpTo tokens.now (budget + 1) parsed.height parsed.next) }
{
    let value = expression(alloc, tokens, budget.saturating_sub(1), EXPRESSION, place)?;
    Ok(evaluated(tokens, place, value))
}

/// Reads the expression that goes on after an lvalue, as a statement.
#[tactic(auto, using(crate::proofs::Budgets::budgets), unfolding(crate::specs::models::StatementParser::evaluation_from))]
fn evaluation_from(
    alloc: Global,
    tokens: &[Token],
    budget: usize,
    place: usize,
    lvalue: Parsed<Lvalue>,
) -> Result<Parsed<Stmt>, Failure>
    requires stands { AtPlace tokens.now budget lvalue.next }
    requires some { 1 ≤ budget }
    requires low { lvalue.height ≤ name_budget budget }
    ensures gives { GivesParsed unit_statement_of result (evaluation_from tokens.now budget place (lvalue_of lvalue.tree) lvalue.height lvalue.next) }
    ensures ends { IfOk result (λ parsed. UpTo tokens.now (budget + 1) parsed.height parsed.next) }
{
    let budget = name_budget(budget);
    let next = lvalue.next;
    let height = height_as_tree(&lvalue.tree, lvalue.height);
    let tree = lvalue_tree(alloc, lvalue.tree)?;
    let left = climb(
        alloc,
        tokens,
        budget,
        LOOSEST,
        Parsed { tree, height, next },
    )?;
    let value = choice(alloc, tokens, budget, left)?;
    Ok(evaluated(tokens, place, value))
}

/// Reads `print` and its value.
#[tactic(auto, using(crate::proofs::Budgets::budgets, crate::proofs::Budgets::tree_forms), unfolding(crate::specs::models::StatementParser::print_at))]
fn print(
    alloc: Global,
    tokens: &[Token],
    budget: usize,
    place: usize,
) -> Result<Parsed<Stmt>, Failure>
    requires stands { AtPlace tokens.now budget place }
    requires more { place + 1 ≤ length tokens.now }
    ensures gives { GivesParsed unit_statement_of result (print_at tokens.now budget place) }
    ensures ends { IfOk result (λ parsed. UpTo tokens.now (budget + 1) parsed.height parsed.next) }
{
    within(2, budget, place)?;
    let value = test(alloc, tokens, budget - 1, place + 1)?;
    let line = line_at(tokens, place);
    Ok(Parsed {
        tree: Stmt::Print {
            line,
            value: value.tree,
        },
        height: value.height + 1,
        next: value.next,
    })
}

/// An assignment of 1 by `+` or `-`, whose mark stands at a place.
#[tactic(auto, using(crate::proofs::Budgets::tree_forms))]
fn stepped(tokens: &[Token], at: usize, op: BinaryOp, lvalue: Lvalue) -> Stmt
    ensures { unit_statement_of result ≡ assigned (lvalue_of lvalue) (Some op) (line_at tokens.now at) (Literal (pos 1)) }
{
    let Lvalue {
        symbol,
        line,
        index,
        bracket,
    } = lvalue;
    Stmt::Assign {
        symbol,
        line,
        index,
        bracket,
        op: Some(op),
        at: line_at(tokens, at),
        value: Expr::Lit { value: 1 },
    }
}

/// Reads a statement that `++` or `--` begins.
#[tactic(auto, using(crate::proofs::Budgets::budgets), unfolding(crate::specs::models::StatementParser::step_before))]
fn step_before(
    alloc: Global,
    tokens: &[Token],
    budget: usize,
    op: BinaryOp,
    place: usize,
) -> Result<Parsed<Stmt>, Failure>
    requires stands { AtPlace tokens.now budget place }
    requires more { place + 1 ≤ length tokens.now }
    ensures gives { GivesParsed unit_statement_of result (step_before tokens.now budget op place) }
    ensures ends { IfOk result (λ parsed. UpTo tokens.now (budget + 1) parsed.height parsed.next) }
{
    within(1, budget, place)?;
    let lvalue = lvalue(alloc, tokens, budget, place + 1)?;
    let tree = stepped(tokens, place, op, lvalue.tree);
    Ok(Parsed {
        tree,
        height: lvalue.height + 1,
        next: lvalue.next,
    })
}

/// Reads what is assigned to an lvalue: a call, where one may and does stand there, or an expression.
#[tactic(auto, unfolding(crate::specs::models::StatementParser::assignment, crate::specs::models::CallParser::right_side_at, crate::specs::models::CallParser::value_or_call))]
fn assignment(
    alloc: Global,
    tokens: &[Token],
    calls: Calls,
    budget: usize,
    lvalue: Parsed<Lvalue>,
    op: Option<BinaryOp>,
) -> Result<Parsed<Stmt>, Failure>
    requires stands { AtPlace tokens.now budget lvalue.next }
    requires more { lvalue.next + 1 ≤ length tokens.now }
    requires some { 1 ≤ budget }
    requires low { lvalue.height ≤ name_budget budget }
    ensures gives { GivesParsed unit_statement_of result (assignment tokens.now calls budget (lvalue_of lvalue.tree) op lvalue.height lvalue.next) }
    ensures ends { IfOk result (λ parsed. UpTo tokens.now (budget + 1) parsed.height parsed.next) }
{
    let at = lvalue.next;
    let calls = callable(calls, op, &lvalue.tree);
    match called_at(tokens, calls, at + 1) {
        Some(function) => {
            let target = Target {
                symbol: lvalue.tree.symbol,
                line: lvalue.tree.line,
                declared: false,
            };
            call_for(alloc, tokens, budget, target, function, at + 1)
        }
        None => assigned(alloc, tokens, calls, budget, lvalue, op),
    }
}

/// Reads the expression that is assigned to an lvalue.
fn assigned(
    alloc: Global,
    tokens: &[Token],
    calls: Calls,
    budget: usize,
    lvalue: Parsed<Lvalue>,
    op: Option<BinaryOp>,
) -> Result<Parsed<Stmt>, Failure>
    requires stands { AtPlace tokens.now budget lvalue.next }
    requires more { lvalue.next + 1 ≤ length tokens.now }
    requires low { lvalue.height ≤ name_budget budget }
    ensures gives { GivesParsed unit_statement_of result (after (value_at tokens.now budget (settled_at calls (kind_at tokens.now (lvalue.next + 1)) lvalue.next (lvalue.next + 1)) (lvalue.next + 1)) (assigning tokens.now (lvalue_of lvalue.tree) op lvalue.height lvalue.next)) }
    ensures ends { IfOk result (λ parsed. UpTo tokens.now (budget + 1) parsed.height parsed.next) }
{
    let at = lvalue.next;
    let value = value(alloc, tokens, calls, budget, at, at + 1)?;
    let height = lvalue.height.max(value.height) + 1;
    let next = value.next;
    let line = line_at(tokens, at);
    let tree = assign(lvalue.tree, op, line, value.tree);
    Ok(Parsed { tree, height, next })
}

/// An assignment, compound where there is an operator.
#[tactic(auto, using(crate::proofs::Budgets::tree_forms))]
fn assign(lvalue: Lvalue, op: Option<BinaryOp>, at: u32, value: Expr) -> Stmt
    ensures { unit_statement_of result ≡ assigned (lvalue_of lvalue) op at (expression_of value) }
{
    let Lvalue {
        symbol,
        line,
        index,
        bracket,
    } = lvalue;
    Stmt::Assign {
        symbol,
        line,
        index,
        bracket,
        op,
        at,
        value,
    }
}

/// Reads what goes on after an lvalue that is not assigned to: `++` or `--`, or an expression.
#[tactic(auto, using(crate::proofs::Budgets::budgets), unfolding(crate::specs::models::StatementParser::behind_lvalue))]
fn behind_lvalue(
    alloc: Global,
    tokens: &[Token],
    budget: usize,
    place: usize,
    lvalue: Parsed<Lvalue>,
) -> Result<Parsed<Stmt>, Failure>
    requires stands { AtPlace tokens.now budget lvalue.next }
    requires some { 1 ≤ budget }
    requires low { lvalue.height ≤ name_budget budget }
    ensures gives { GivesParsed unit_statement_of result (behind_lvalue tokens.now budget place (lvalue_of lvalue.tree) lvalue.height lvalue.next (step_from (kind_at tokens.now lvalue.next))) }
    ensures ends { IfOk result (λ parsed. UpTo tokens.now (budget + 1) parsed.height parsed.next) }
{
    let at = lvalue.next;
    match step_at(tokens, at) {
        Some(op) => {
            let tree = stepped(tokens, at, op, lvalue.tree);
            Ok(Parsed {
                tree,
                height: lvalue.height + 1,
                next: at + 1,
            })
        }
        None => evaluation_from(alloc, tokens, budget, place, lvalue),
    }
}

/// Reads what goes on after an lvalue: the arguments of a call, where the name may be called, or what is
/// assigned to it, or the rest of an expression.
#[tactic(auto, using(crate::proofs::Budgets::budgets), unfolding(crate::specs::models::StatementParser::after_lvalue, crate::specs::models::StatementParser::on_lvalue))]
fn after_lvalue(
    alloc: Global,
    tokens: &[Token],
    calls: Calls,
    budget: usize,
    place: usize,
    lvalue: Parsed<Lvalue>,
) -> Result<Parsed<Stmt>, Failure>
    requires stands { AtPlace tokens.now budget lvalue.next }
    requires some { 1 ≤ budget }
    requires low { lvalue.height ≤ name_budget budget }
    ensures gives { GivesParsed unit_statement_of result (after_lvalue tokens.now calls budget place (lvalue_of lvalue.tree) lvalue.height lvalue.next) }
    ensures ends { IfOk result (λ parsed. UpTo tokens.now (budget + 1) parsed.height parsed.next) }
{
    let at = lvalue.next;
    if opens_call(tokens, callable(calls, None, &lvalue.tree), at) {
        let head = CallHead {
            line: lvalue.tree.line,
            target: None,
            function: lvalue.tree.symbol,
            at: lvalue.tree.line,
        };
        return call(alloc, tokens, budget, head, at + 1);
    }
    match assignment_at(tokens, at) {
        Some(op) => assignment(alloc, tokens, calls, budget, lvalue, op),
        None => behind_lvalue(alloc, tokens, budget, place, lvalue),
    }
}

/// Reads a statement that a name begins.
#[tactic(auto, using(crate::proofs::Budgets::budgets), unfolding(crate::specs::models::StatementParser::named))]
fn named(
    alloc: Global,
    tokens: &[Token],
    calls: Calls,
    budget: usize,
    place: usize,
) -> Result<Parsed<Stmt>, Failure>
    requires { AtPlace tokens.now budget place }
    ensures gives { GivesParsed unit_statement_of result (named tokens.now calls budget place) }
    ensures ends { IfOk result (λ parsed. UpTo tokens.now (budget + 1) parsed.height parsed.next) }
{
    within(1, budget, place)?;
    let lvalue = lvalue(alloc, tokens, budget, place)?;
    after_lvalue(alloc, tokens, calls, budget, place, lvalue)
}

/// Reads a simple statement. Its height is one above the budget where a lone name is the whole of it
/// and the budget is 1.
#[tactic(auto, using(crate::proofs::Budgets::budgets), unfolding(crate::specs::models::StatementParser::simple_at, crate::specs::models::StatementParser::simple_on, crate::specs::models::StatementParser::marked))]
pub(crate) fn simple(
    alloc: Global,
    tokens: &[Token],
    calls: Calls,
    budget: usize,
    place: usize,
) -> Result<Parsed<Stmt>, Failure>
    requires { AtPlace tokens.now budget place }
    ensures gives { GivesParsed unit_statement_of result (simple_at tokens.now calls budget place) }
    ensures ends { IfOk result (λ parsed. UpTo tokens.now (budget + 1) parsed.height parsed.next) }
{
    match kind_at(tokens, place) {
        Some(TokenKind::Name { .. }) => named(alloc, tokens, calls, budget, place),
        Some(TokenKind::Number { .. }) => evaluation(alloc, tokens, budget, place),
        Some(TokenKind::Key { key }) => {
            if key == Keyword::Print {
                return print(alloc, tokens, budget, place);
            }
            evaluation(alloc, tokens, budget, place)
        }
        Some(TokenKind::Mark { mark }) => match step_of(mark) {
            Some(op) => step_before(alloc, tokens, budget, op, place),
            None => evaluation(alloc, tokens, budget, place),
        },
        None => evaluation(alloc, tokens, budget, place),
    }
}
