ghost use Rattle.std.specs.Prelude.{◌≡◌, ℕ, ◌+◌, ◌<◌, ◌≤◌, None, length, IfOk};
ghost use Rattle.pc_word.specs.SourceLimits.{most_tokens};
ghost use Rattle.pc_syntax.specs.UnitErasure.{unit_statement_of, unit_list_of};
ghost use Rattle.pc_parser.specs.models.Tests.{symbol_of};
ghost use Rattle.pc_parser.specs.Places.{kind_at, line_at};
ghost use Rattle.pc_syntax.specs.Unit.{Scalar};
ghost use Rattle.pc_parser.specs.models.StatementParser.{array, initialising, initialised, declarator_on, declarator_at, declarators_at, declaration_at, static_at, length_of};
ghost use Rattle.pc_parser.specs.models.CallParser.{settled_at, value_at};
ghost use Rattle.pc_parser.specs.models.Outcome.{after};
ghost use Rattle.pc_parser.specs.models.Parsing.{GivesParsed, AtPlace, UpTo, behind};

use crate::arrays::fixed;
use crate::call::{call_for, called_at, value};
use crate::calls::Calls;
use crate::outcome::{Failure, Parsed, within};
use crate::place::{expect, expect_key, is_mark, length_at, line_at, symbol_at};
use crate::storage::Storage;
use pc_lexer::{Keyword, Mark, Token};
use pc_syntax::{Stmt, StmtList, Target};
use pc_word::Seq;
use std::alloc::Global;

/// Reads a declaration, whose `int` stands at the place, and puts a statement for each declarator after
/// the items before it. The height is that of the declarators.
#[tactic(auto, using(crate::proofs::Budgets::budgets), unfolding(crate::specs::models::StatementParser::declaration_at))]
pub(crate) fn declaration(
    alloc: Global,
    tokens: &[Token],
    calls: Calls,
    budget: usize,
    items: StmtList,
    place: usize,
) -> Result<Parsed<StmtList>, Failure>
    requires stands { AtPlace tokens.now budget place }
    requires more { place + 1 ≤ length tokens.now }
    ensures gives { GivesParsed unit_list_of result (behind (unit_list_of items) (declaration_at tokens.now calls budget place)) }
    ensures ends { IfOk result (λ parsed. UpTo tokens.now budget parsed.height parsed.next) }
    ensures further { IfOk result (λ parsed. place < parsed.next) }
{
    within(1, budget, place)?;
    declarators(
        alloc,
        tokens,
        calls,
        budget,
        Storage::Automatic,
        items,
        place + 1,
    )
}

/// The same of a declaration whose `static` stands at the place.
#[tactic(auto, using(crate::proofs::Budgets::budgets), unfolding(crate::specs::models::StatementParser::static_at))]
pub(crate) fn static_declaration(
    alloc: Global,
    tokens: &[Token],
    calls: Calls,
    budget: usize,
    items: StmtList,
    place: usize,
) -> Result<Parsed<StmtList>, Failure>
    requires stands { AtPlace tokens.now budget place }
    requires more { place + 1 ≤ length tokens.now }
    ensures gives { GivesParsed unit_list_of result (behind (unit_list_of items) (static_at tokens.now calls budget place)) }
    ensures ends { IfOk result (λ parsed. UpTo tokens.now budget parsed.height parsed.next) }
    ensures further { IfOk result (λ parsed. place < parsed.next) }
{
    within(1, budget, place)?;
    expect_key(tokens, Keyword::Int, place + 1)?;
    declarators(
        alloc,
        tokens,
        calls,
        budget,
        Storage::Static,
        items,
        place + 2,
    )
}

/// Reads declarators up to a `;`, and appends them to the items before them.
fn declarators(
    alloc: Global,
    tokens: &[Token],
    calls: Calls,
    budget: usize,
    storage: Storage,
    mut items: StmtList,
    place: usize,
) -> Result<Parsed<StmtList>, Failure>
    requires stands { AtPlace tokens.now budget place }
    requires some { 1 ≤ budget }
    ensures gives { GivesParsed unit_list_of result (behind (unit_list_of items) (declarators_at tokens.now calls budget storage (length tokens.now + 1) place)) }
    ensures ends { IfOk result (λ parsed. UpTo tokens.now budget parsed.height parsed.next) }
    ensures further { IfOk result (λ parsed. place < parsed.next) }
{
    let first = declarator(alloc, tokens, calls, budget, storage, place)?;
    items.push(first.tree)?;
    let mut height = first.height;
    let mut next = first.next;
    while is_mark(tokens, Mark::Comma, next) {
        let other = declarator(alloc, tokens, calls, budget, storage, next + 1)?;
        items.push(other.tree)?;
        height = height.max(other.height);
        next = other.next;
    }
    expect(tokens, Mark::Semicolon, next)?;
    Ok(Parsed {
        tree: items,
        height,
        next: next + 1,
    })
}

/// Reads a declarator.
#[tactic(auto, unfolding(crate::specs::models::StatementParser::declarator_at))]
fn declarator(
    alloc: Global,
    tokens: &[Token],
    calls: Calls,
    budget: usize,
    storage: Storage,
    place: usize,
) -> Result<Parsed<Stmt>, Failure>
    requires stands { AtPlace tokens.now budget place }
    requires some { 1 ≤ budget }
    ensures gives { GivesParsed unit_statement_of result (declarator_at tokens.now calls budget storage place) }
    ensures ends { IfOk result (λ parsed. UpTo tokens.now budget parsed.height parsed.next) }
{
    match storage {
        Storage::Automatic => automatic(alloc, tokens, calls, budget, place),
        Storage::Static => fixed(alloc, tokens, place),
    }
}

/// Reads a declarator of a declaration without `static`.
#[tactic(auto, using(crate::proofs::Budgets::budgets), unfolding(crate::specs::models::StatementParser::declarator_on))]
fn automatic(
    alloc: Global,
    tokens: &[Token],
    calls: Calls,
    budget: usize,
    place: usize,
) -> Result<Parsed<Stmt>, Failure>
    requires stands { AtPlace tokens.now budget place }
    requires some { 1 ≤ budget }
    ensures gives { GivesParsed unit_statement_of result (declarator_on tokens.now calls budget (symbol_of (kind_at tokens.now place)) place) }
    ensures ends { IfOk result (λ parsed. UpTo tokens.now budget parsed.height parsed.next) }
{
    match symbol_at(tokens, place) {
        Some(symbol) => {
            if is_mark(tokens, Mark::Assign, place + 1) {
                return initialised(alloc, tokens, calls, budget, symbol, place);
            }
            if is_mark(tokens, Mark::LeftBracket, place + 1) {
                return array(alloc, tokens, symbol, place);
            }
            Ok(scalar(tokens, symbol, place))
        }
        None => Err(Failure::Syntax { at: place }),
    }
}

/// The declarator of a scalar without an initialiser.
#[tactic(auto, using(crate::proofs::Budgets::tree_forms))]
fn scalar(tokens: &[Token], symbol: u32, place: usize) -> Parsed<Stmt>
    requires { place < most_tokens }
    ensures tree { unit_statement_of result.tree ≡ Scalar symbol (line_at tokens.now place) None }
    ensures height { result.height ≡ 1 }
    ensures next { result.next ≡ place + 1 }
{
    let line = line_at(tokens, place);
    Parsed {
        tree: Stmt::Scalar {
            symbol,
            line,
            init: None,
        },
        height: 1,
        next: place + 1,
    }
}

/// Reads the initialiser of a scalar: a call, where one may and does stand there, or an expression.
#[tactic(auto, unfolding(crate::specs::models::StatementParser::initialised, crate::specs::models::CallParser::right_side_at, crate::specs::models::CallParser::value_or_call))]
fn initialised(
    alloc: Global,
    tokens: &[Token],
    calls: Calls,
    budget: usize,
    symbol: u32,
    place: usize,
) -> Result<Parsed<Stmt>, Failure>
    requires stands { AtPlace tokens.now budget place }
    requires some { 1 ≤ budget }
    requires more { place + 2 ≤ length tokens.now }
    ensures gives { GivesParsed unit_statement_of result (initialised tokens.now calls budget symbol place) }
    ensures ends { IfOk result (λ parsed. UpTo tokens.now budget parsed.height parsed.next) }
{
    match called_at(tokens, calls, place + 2) {
        Some(function) => {
            let target = Target {
                symbol,
                line: line_at(tokens, place),
                declared: true,
            };
            call_for(alloc, tokens, budget, target, function, place + 2)
        }
        None => initialised_by(alloc, tokens, calls, budget, symbol, place),
    }
}

/// Reads the expression with which a scalar begins.
#[tactic(auto, using(crate::proofs::Budgets::tree_forms))]
fn initialised_by(
    alloc: Global,
    tokens: &[Token],
    calls: Calls,
    budget: usize,
    symbol: u32,
    place: usize,
) -> Result<Parsed<Stmt>, Failure>
    requires stands { AtPlace tokens.now budget place }
    requires more { place + 2 ≤ length tokens.now }
    ensures gives { GivesParsed unit_statement_of result (after (value_at tokens.now budget (settled_at calls (kind_at tokens.now (place + 2)) (place + 1) (place + 2)) (place + 2)) (initialising tokens.now symbol place)) }
    ensures ends { IfOk result (λ parsed. UpTo tokens.now budget parsed.height parsed.next) }
{
    let value = value(alloc, tokens, calls, budget, place + 1, place + 2)?;
    let line = line_at(tokens, place);
    Ok(Parsed {
        tree: Stmt::Scalar {
            symbol,
            line,
            init: Some(value.tree),
        },
        height: value.height + 1,
        next: value.next,
    })
}

/// Reads the length of an array.
#[tactic(auto, using(crate::proofs::Budgets::budgets, crate::proofs::Budgets::tree_forms), unfolding(crate::specs::models::StatementParser::array))]
fn array(
    alloc: Global,
    tokens: &[Token],
    symbol: u32,
    place: usize,
) -> Result<Parsed<Stmt>, Failure>
    requires { place + 2 ≤ length tokens.now }
    ensures gives { GivesParsed unit_statement_of result (array tokens.now symbol place (length_of (kind_at tokens.now (place + 2)))) }
    ensures ends { IfOk result (λ parsed. (parsed.height ≡ 1) × (parsed.next ≤ length tokens.now) × (place < parsed.next)) }
{
    match length_at(tokens, place + 2) {
        Some(length) => {
            expect(tokens, Mark::RightBracket, place + 3)?;
            let line = line_at(tokens, place);
            let at = line_at(tokens, place + 2);
            Ok(Parsed {
                tree: Stmt::Array {
                    symbol,
                    line,
                    at,
                    length,
                    values: Seq::new(alloc),
                },
                height: 1,
                next: place + 4,
            })
        }
        None => Err(Failure::Syntax { at: place + 2 }),
    }
}
