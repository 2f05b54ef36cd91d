//! Calls of functions.
ghost use Rattle.std.specs.Prelude.{◌≡◌, ℕ, ◌+◌, ◌-◌, ◌<◌, ◌≤◌, Some, length, map, OnSome, IfOk};
ghost use Rattle.std.specs.Bool.{OnTrue};
ghost use Rattle.pc_word.specs.SourceLimits.{most_tokens};
ghost use Rattle.pc_syntax.specs.Erasure.{expression_of};
ghost use Rattle.pc_syntax.specs.UnitErasure.{unit_statement_of};
ghost use Rattle.pc_parser.specs.Places.{kind_at, line_at};
ghost use Rattle.pc_parser.specs.models.CallParser.{callable, opens_call, called, settled_at, argument_list_at, arguments_at, call_at, value_at};
ghost use Rattle.pc_parser.specs.models.Parsing.{GivesParsed, lvalue_of, AtPlace, UpTo};

use crate::calls::Calls;
use crate::expression::{EXPRESSION, expression};
use crate::lvalue::Lvalue;
use crate::outcome::{Failure, Parsed, within};
use crate::place::{expect, is_mark, line_at, symbol_at};
use pc_lexer::{Mark, Token};
use pc_syntax::{BinaryOp, Expr, ExprList, Stmt, Target};
use pc_word::Seq;
use std::alloc::Global;

/// Whether a call may go on after an lvalue, or stand after the mark that assigns to it by this operator:
/// only a lone name is called, or gets a call's value by `=`.
#[tactic(auto, unfolding(crate::specs::models::CallParser::callable))]
pub(crate) fn callable(calls: Calls, op: Option<BinaryOp>, lvalue: &Lvalue) -> Calls
    ensures { result ≡ callable calls op (lvalue_of lvalue.now).index }
{
    match op {
        Some(_) => Calls::Refused,
        None => match lvalue.index {
            None => calls,
            Some(_) => Calls::Refused,
        },
    }
}

/// Whether the token at a place opens the arguments of a call.
#[tactic(auto, unfolding(crate::specs::models::CallParser::opens_call))]
pub(crate) fn opens_call(tokens: &[Token], calls: Calls, place: usize) -> bool
    ensures value { result ≡ opens_call calls (kind_at tokens.now place) }
    ensures inside { OnTrue result (place < length tokens.now) }
{
    match calls {
        Calls::Refused => false,
        Calls::Allowed => is_mark(tokens, Mark::LeftParen, place),
    }
}

/// The symbol of the name that is called, where a call begins at a place.
#[tactic(auto, unfolding(crate::specs::models::CallParser::called))]
pub(crate) fn called_at(tokens: &[Token], calls: Calls, place: usize) -> Option<u32>
    requires inside { place ≤ length tokens.now }
    requires few { length tokens.now ≤ most_tokens }
    ensures value { result ≡ called calls (kind_at tokens.now place) (kind_at tokens.now (place + 1)) }
    ensures inside { OnSome result (place + 2 ≤ length tokens.now) }
{
    match calls {
        Calls::Refused => None,
        Calls::Allowed => match symbol_at(tokens, place) {
            None => None,
            Some(symbol) => {
                if is_mark(tokens, Mark::LeftParen, place + 1) {
                    Some(symbol)
                } else {
                    None
                }
            }
        },
    }
}

/// The place of the first token that shows that no call stands behind the `=` at a place, from the next
/// place on.
#[tactic(auto, unfolding(crate::specs::models::CallParser::settled_at))]
fn settled_at(tokens: &[Token], calls: Calls, at: usize, from: usize) -> usize
    requires inside { from ≤ length tokens.now }
    requires few { length tokens.now ≤ most_tokens }
    ensures { result ≡ settled_at calls (kind_at tokens.now from) at from }
{
    match calls {
        Calls::Refused => at,
        Calls::Allowed => match symbol_at(tokens, from) {
            Some(_) => from + 1,
            None => from,
        },
    }
}

/// Reads the expression behind the `=` at a place, from the next place on.
#[tactic(auto, using(crate::proofs::Budgets::budgets), unfolding(crate::specs::models::CallParser::value_at))]
pub(crate) fn value(
    alloc: Global,
    tokens: &[Token],
    calls: Calls,
    budget: usize,
    at: usize,
    from: usize,
) -> Result<Parsed<Expr>, Failure>
    requires { AtPlace tokens.now budget from }
    ensures gives { GivesParsed expression_of result (value_at tokens.now budget (settled_at calls (kind_at tokens.now from) at from) from) }
    ensures ends { IfOk result (λ parsed. UpTo tokens.now (budget - 1) parsed.height parsed.next) }
    ensures some { IfOk result (λ parsed. 2 ≤ budget) }
{
    within(2, budget, settled_at(tokens, calls, at, from))?;
    expression(alloc, tokens, budget - 1, EXPRESSION, from)
}

/// Reads the arguments of a call up to its `)`, of which there is at least one.
fn argument_list(
    alloc: Global,
    tokens: &[Token],
    budget: usize,
    place: usize,
) -> Result<Parsed<ExprList>, Failure>
    requires { AtPlace tokens.now budget place }
    ensures gives { GivesParsed (map expression_of) result (argument_list_at tokens.now budget (length tokens.now + 1) place) }
    ensures ends { IfOk result (λ parsed. UpTo tokens.now budget parsed.height parsed.next) }
{
    let mut arguments = Seq::new(alloc);
    let first = expression(alloc, tokens, budget, EXPRESSION, place)?;
    arguments.push(first.tree)?;
    let mut height = first.height;
    let mut next = first.next;
    while is_mark(tokens, Mark::Comma, next) {
        let other = expression(alloc, tokens, budget, EXPRESSION, next + 1)?;
        arguments.push(other.tree)?;
        height = height.max(other.height);
        next = other.next;
    }
    expect(tokens, Mark::RightParen, next)?;
    Ok(Parsed {
        tree: arguments,
        height,
        next: next + 1,
    })
}

/// Reads the arguments of a call, from behind its `(`.
#[tactic(auto, unfolding(crate::specs::models::CallParser::arguments_at))]
fn arguments(
    alloc: Global,
    tokens: &[Token],
    budget: usize,
    place: usize,
) -> Result<Parsed<ExprList>, Failure>
    requires { AtPlace tokens.now budget place }
    ensures gives { GivesParsed (map expression_of) result (arguments_at tokens.now budget place) }
    ensures ends { IfOk result (λ parsed. UpTo tokens.now budget parsed.height parsed.next) }
{
    if is_mark(tokens, Mark::RightParen, place) {
        return Ok(Parsed {
            tree: Seq::new(alloc),
            height: 0,
            next: place + 1,
        });
    }
    argument_list(alloc, tokens, budget, place)
}

/// What stands in front of the arguments of a call. `line` is that of the statement, and `at` that of the
/// function's name.
#[derive(Clone, Copy, Debug)]
pub(crate) struct CallHead {
    pub(crate) line: u32,
    pub(crate) target: Option<Target>,
    pub(crate) function: u32,
    pub(crate) at: u32,
}

/// Reads a call from behind its `(`.
#[tactic(auto, using(crate::proofs::Budgets::tree_forms), unfolding(crate::specs::models::CallParser::call_at))]
pub(crate) fn call(
    alloc: Global,
    tokens: &[Token],
    budget: usize,
    head: CallHead,
    place: usize,
) -> Result<Parsed<Stmt>, Failure>
    requires stands { AtPlace tokens.now budget place }
    requires some { 1 ≤ budget }
    ensures gives { GivesParsed unit_statement_of result (call_at tokens.now budget head.line head.target head.function head.at place) }
    ensures ends { IfOk result (λ parsed. UpTo tokens.now budget parsed.height parsed.next) }
{
    let given = arguments(alloc, tokens, budget - 1, place)?;
    Ok(Parsed {
        tree: Stmt::Call {
            line: head.line,
            target: head.target,
            function: head.function,
            at: head.at,
            args: given.tree,
        },
        height: given.height + 1,
        next: given.next,
    })
}

/// Reads the call of a function, whose name stands at a place, and whose value the target gets.
pub(crate) fn call_for(
    alloc: Global,
    tokens: &[Token],
    budget: usize,
    target: Target,
    function: u32,
    place: usize,
) -> Result<Parsed<Stmt>, Failure>
    requires stands { AtPlace tokens.now budget place }
    requires some { 1 ≤ budget }
    requires more { place + 2 ≤ length tokens.now }
    ensures gives { GivesParsed unit_statement_of result (call_at tokens.now budget target.line (Some target) function (line_at tokens.now place) (place + 2)) }
    ensures ends { IfOk result (λ parsed. UpTo tokens.now budget parsed.height parsed.next) }
{
    let head = CallHead {
        line: target.line,
        target: Some(target),
        function,
        at: line_at(tokens, place),
    };
    call(alloc, tokens, budget, head, place + 2)
}
