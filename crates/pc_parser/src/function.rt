//! Functions, and the translation units that they and `main` are.
ghost use Rattle.std.specs.Prelude.{◌≡◌, ℕ, ◌+◌, ◌<◌, ◌≤◌, length, option_map, OnSome, IfOk, MatchResult};
ghost use Rattle.pc_word.specs.SourceLimits.{most_tokens, most_height};
ghost use Rattle.pc_syntax.specs.Erasure.{expression_of};
ghost use Rattle.pc_syntax.specs.UnitErasure.{unit_statement_of, unit_list_of, function_of, unit_of};
ghost use Rattle.pc_syntax.specs.Unit.{unit_appended};
ghost use Rattle.pc_parser.specs.Places.{kind_at};
ghost use Rattle.pc_parser.specs.Units.{returned, kept, result_of, without_result};
ghost use Rattle.pc_parser.specs.models.UnitParser.{function_name, function_with, parameter_at, parameter_list_at, parameters_at, function_at, unit_at};
ghost use Rattle.pc_parser.specs.models.Parsing.{GivesParsed, UpTo};
ghost use Rattle.pc_parser.specs.declared.outcome.Failure.TheVariants.{Memory};

use crate::calls::Calls;
use crate::outcome::{Failure, Parsed};
use crate::place::{expect, expect_key, is_key, is_mark, line_at, symbol_at};
use crate::statement::block;
use crate::unit::main_at;
use pc_lexer::{Keyword, Mark, Token};
use pc_syntax::{Expr, Function, Param, ParamList, Program, SourceUnit, Stmt, StmtList};
use pc_word::{MOST_HEIGHT, Seq};
use std::alloc::Global;

/// The symbol of the name of the function that begins at a place, where one does.
fn function_name(tokens: &[Token], place: usize) -> Option<u32>
    requires inside { place ≤ length tokens.now }
    requires few { length tokens.now ≤ most_tokens }
    ensures value { result ≡ function_name (kind_at tokens.now place) (kind_at tokens.now (place + 1)) }
    ensures inside { OnSome result (place + 2 ≤ length tokens.now) }
{
    if is_key(tokens, Keyword::Int, place) {
        return symbol_at(tokens, place + 1);
    }
    None
}

/// Reads a parameter.
#[tactic(auto, unfolding(crate::specs::models::UnitParser::parameter_at, crate::specs::models::UnitParser::parameter_on))]
fn parameter(tokens: &[Token], place: usize) -> Result<Parsed<Param>, Failure>
    requires inside { place ≤ length tokens.now }
    requires few { length tokens.now ≤ most_tokens }
    ensures gives { GivesParsed (λ tree. tree) result (parameter_at tokens.now place) }
    ensures ends { IfOk result (λ parsed. (place < parsed.next) × (parsed.next ≤ length tokens.now)) }
{
    expect_key(tokens, Keyword::Int, place)?;
    match symbol_at(tokens, place + 1) {
        Some(symbol) => Ok(Parsed {
            tree: Param {
                symbol,
                line: line_at(tokens, place + 1),
            },
            height: 0,
            next: place + 2,
        }),
        None => Err(Failure::Syntax { at: place + 1 }),
    }
}

/// Reads parameters up to a `)`, of which there is at least one.
fn parameter_list(
    alloc: Global,
    tokens: &[Token],
    place: usize,
) -> Result<Parsed<ParamList>, Failure>
    requires inside { place ≤ length tokens.now }
    requires few { length tokens.now ≤ most_tokens }
    ensures gives { GivesParsed (λ trees. trees) result (parameter_list_at tokens.now (length tokens.now + 1) place) }
    ensures ends { IfOk result (λ parsed. (place < parsed.next) × (parsed.next ≤ length tokens.now)) }
{
    let mut params = Seq::new(alloc);
    let first = parameter(tokens, place)?;
    params.push(first.tree)?;
    let mut next = first.next;
    while is_mark(tokens, Mark::Comma, next) {
        let other = parameter(tokens, next + 1)?;
        params.push(other.tree)?;
        next = other.next;
    }
    expect(tokens, Mark::RightParen, next)?;
    Ok(Parsed {
        tree: params,
        height: 0,
        next: next + 1,
    })
}

/// Reads the parameters of a function, from behind its `(`.
#[tactic(auto, unfolding(crate::specs::models::UnitParser::parameters_at))]
fn parameters(alloc: Global, tokens: &[Token], place: usize) -> Result<Parsed<ParamList>, Failure>
    requires inside { place ≤ length tokens.now }
    requires few { length tokens.now ≤ most_tokens }
    ensures gives { GivesParsed (λ trees. trees) result (parameters_at tokens.now place) }
    ensures ends { IfOk result (λ parsed. (place < parsed.next) × (parsed.next ≤ length tokens.now)) }
{
    if is_mark(tokens, Mark::RightParen, place) {
        return Ok(Parsed {
            tree: Seq::new(alloc),
            height: 0,
            next: place + 1,
        });
    }
    if is_key(tokens, Keyword::Void, place) {
        expect(tokens, Mark::RightParen, place + 1)?;
        return Ok(Parsed {
            tree: Seq::new(alloc),
            height: 0,
            next: place + 2,
        });
    }
    parameter_list(alloc, tokens, place)
}

/// The items of a function's block without the `return` that is the last one, and its value.
#[derive(Debug, Drop)]
struct FunctionBody {
    items: StmtList,
    result: Option<Expr>,
}

/// Puts a last item behind the others, unless it is a `return`.
#[tactic(auto, using(crate::proofs::Budgets::tree_forms))]
fn ended_by(mut items: StmtList, last: Stmt) -> Result<FunctionBody, Failure>
    ensures { MatchResult result (λ body. (unit_list_of body.items ≡ unit_appended (unit_list_of items) (kept (unit_statement_of last) (returned (unit_statement_of last))))
        × (option_map expression_of body.result ≡ returned (unit_statement_of last))) (λ failure. failure ≡ Memory) }
{
    if let Stmt::Return { line: _, value } = last {
        return Ok(FunctionBody {
            items,
            result: Some(value),
        });
    }
    items.push(last)?;
    Ok(FunctionBody {
        items,
        result: None,
    })
}

/// Takes the result of a function from the items of its block.
fn ended_body(mut items: StmtList) -> Result<FunctionBody, Failure>
    ensures { MatchResult result (λ body. (unit_list_of body.items ≡ without_result (unit_list_of items)) × (option_map expression_of body.result ≡ result_of (unit_list_of items)))
        (λ failure. failure ≡ Memory) }
{
    match items.pop() {
        None => Ok(FunctionBody {
            items,
            result: None,
        }),
        Some(last) => ended_by(items, last),
    }
}

/// Reads the function of this name, whose `int` stands at a place.
#[tactic(auto, using(crate::proofs::Budgets::budgets), unfolding(crate::specs::models::UnitParser::function_at))]
fn function(
    alloc: Global,
    tokens: &[Token],
    symbol: u32,
    place: usize,
) -> Result<Parsed<Function>, Failure>
    requires few { length tokens.now ≤ most_tokens }
    requires more { place + 2 ≤ length tokens.now }
    ensures gives { GivesParsed function_of result (function_at tokens.now most_height symbol place) }
    ensures ends { IfOk result (λ parsed. UpTo tokens.now most_height parsed.height parsed.next) }
{
    expect(tokens, Mark::LeftParen, place + 2)?;
    let params = parameters(alloc, tokens, place + 3)?;
    expect(tokens, Mark::LeftBrace, params.next)?;
    let items = block(alloc, tokens, Calls::Allowed, MOST_HEIGHT, params.next)?;
    let line = line_at(tokens, place + 1);
    let tree = function_tree(symbol, line, params.tree, items.tree)?;
    Ok(Parsed {
        tree,
        height: items.height,
        next: items.next,
    })
}

/// The function with the items of its block.
fn function_tree(
    symbol: u32,
    line: u32,
    params: ParamList,
    items: StmtList,
) -> Result<Function, Failure>
    ensures { MatchResult result (λ function. function_of function ≡ function_with symbol line params (unit_list_of items)) (λ failure. failure ≡ Memory) }
{
    let FunctionBody { items, result } = ended_body(items)?;
    Ok(Function {
        symbol,
        line,
        params,
        items,
        result,
    })
}

/// Reads the unit that the tokens are.
pub(crate) fn source_unit(alloc: Global, tokens: &[Token]) -> Result<Parsed<SourceUnit>, Failure>
    requires { length tokens.now ≤ most_tokens }
    ensures { GivesParsed unit_of result (unit_at tokens.now most_height) }
{
    let mut functions = Seq::new(alloc);
    let mut height = 0usize;
    let mut place = 0usize;
    while let Some(symbol) = function_name(tokens, place) {
        let more = function(alloc, tokens, symbol, place)?;
        functions.push(more.tree)?;
        height = height.max(more.height);
        place = more.next;
    }
    expect_key(tokens, Keyword::Int, place)?;
    let main = main_at(alloc, tokens, Calls::Allowed, place + 1)?;
    Ok(Parsed {
        tree: SourceUnit {
            functions,
            main: Program { items: main.tree },
        },
        height: height.max(main.height),
        next: main.next,
    })
}
