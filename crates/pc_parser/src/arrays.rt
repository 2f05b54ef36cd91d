//! The declarators of a static declaration: arrays, with or without an initialiser.
ghost use Rattle.std.specs.Prelude.{◌≡◌, ◌+◌, ◌<◌, ◌≤◌, length, IfOk};
ghost use Rattle.pc_syntax.specs.UnitErasure.{unit_statement_of};
ghost use Rattle.pc_parser.specs.models.Tests.{symbol_of};
ghost use Rattle.pc_parser.specs.Places.{kind_at};
ghost use Rattle.pc_parser.specs.models.StatementParser.{plain, negated, constant_at, constants_at, valued, sized, fixed_on, number_of, length_of};
ghost use Rattle.pc_parser.specs.models.Parsing.{GivesParsed};

use crate::outcome::{Failure, Parsed};
use crate::place::{expect, is_mark, length_at, line_at, number_at, symbol_at};
use pc_lexer::{Mark, Token};
use pc_syntax::{Const, ConstList, Stmt};
use pc_word::{Seq, sub};
use std::alloc::Global;

/// Reads a constant: a number, or `-` and a number.
#[tactic(auto, unfolding(crate::specs::models::StatementParser::constant_at, crate::specs::models::StatementParser::plain, crate::specs::models::StatementParser::negated))]
fn constant(tokens: &[Token], place: usize) -> Result<Parsed<Const>, Failure>
    requires { place ≤ length tokens.now }
    ensures gives { GivesParsed (λ tree. tree) result (constant_at tokens.now place) }
    ensures ends { IfOk result (λ parsed. (place < parsed.next) × (parsed.next ≤ length tokens.now)) }
{
    let line = line_at(tokens, place);
    if is_mark(tokens, Mark::Minus, place) {
        return match number_at(tokens, place + 1) {
            Some(value) => Ok(Parsed {
                tree: Const {
                    line,
                    value: sub(0, value),
                },
                height: 1,
                next: place + 2,
            }),
            None => Err(Failure::Syntax { at: place + 1 }),
        };
    }
    match number_at(tokens, place) {
        Some(value) => Ok(Parsed {
            tree: Const { line, value },
            height: 1,
            next: place + 1,
        }),
        None => Err(Failure::Syntax { at: place }),
    }
}

/// Reads the constants of an initialiser, up to its `}`.
fn constants(alloc: Global, tokens: &[Token], place: usize) -> Result<Parsed<ConstList>, Failure>
    requires { place ≤ length tokens.now }
    ensures gives { GivesParsed (λ trees. trees) result (constants_at tokens.now (length tokens.now + 1) place) }
    ensures ends { IfOk result (λ parsed. (place < parsed.next) × (parsed.next ≤ length tokens.now)) }
{
    let mut values = Seq::new(alloc);
    let first = constant(tokens, place)?;
    values.push(first.tree)?;
    let mut next = first.next;
    while is_mark(tokens, Mark::Comma, next) {
        if is_mark(tokens, Mark::RightBrace, next + 1) {
            return Ok(Parsed {
                tree: values,
                height: 1,
                next: next + 2,
            });
        }
        let other = constant(tokens, next + 1)?;
        values.push(other.tree)?;
        next = other.next;
    }
    expect(tokens, Mark::RightBrace, next)?;
    Ok(Parsed {
        tree: values,
        height: 1,
        next: next + 1,
    })
}

/// Reads the initialiser of an array, after its `=`.
#[tactic(auto, using(crate::proofs::Budgets::budgets, crate::proofs::Budgets::tree_forms), unfolding(crate::specs::models::StatementParser::valued))]
fn valued(
    alloc: Global,
    tokens: &[Token],
    symbol: u32,
    size: u32,
    place: usize,
) -> Result<Parsed<Stmt>, Failure>
    requires { place + 5 ≤ length tokens.now }
    ensures gives { GivesParsed unit_statement_of result (valued tokens.now symbol place size) }
    ensures ends { IfOk result (λ parsed. (parsed.height ≡ 1) × (parsed.next ≤ length tokens.now) × (place < parsed.next)) }
{
    expect(tokens, Mark::LeftBrace, place + 5)?;
    let values = constants(alloc, tokens, place + 6)?;
    let line = line_at(tokens, place);
    let at = line_at(tokens, place + 2);
    Ok(Parsed {
        tree: Stmt::Array {
            symbol,
            line,
            at,
            length: size,
            values: values.tree,
        },
        height: 1,
        next: values.next,
    })
}

/// Reads the length of an array, and its initialiser, where there is one.
#[tactic(auto, using(crate::proofs::Budgets::budgets, crate::proofs::Budgets::tree_forms), unfolding(crate::specs::models::StatementParser::sized))]
fn sized(
    alloc: Global,
    tokens: &[Token],
    symbol: u32,
    place: usize,
) -> Result<Parsed<Stmt>, Failure>
    requires { place + 2 ≤ length tokens.now }
    ensures gives { GivesParsed unit_statement_of result (sized tokens.now symbol place (length_of (kind_at tokens.now (place + 2)))) }
    ensures ends { IfOk result (λ parsed. (parsed.height ≡ 1) × (parsed.next ≤ length tokens.now) × (place < parsed.next)) }
{
    match length_at(tokens, place + 2) {
        Some(size) => {
            expect(tokens, Mark::RightBracket, place + 3)?;
            if is_mark(tokens, Mark::Assign, place + 4) {
                return valued(alloc, tokens, symbol, size, place);
            }
            let line = line_at(tokens, place);
            let at = line_at(tokens, place + 2);
            Ok(Parsed {
                tree: Stmt::Array {
                    symbol,
                    line,
                    at,
                    length: size,
                    values: Seq::new(alloc),
                },
                height: 1,
                next: place + 4,
            })
        }
        None => Err(Failure::Syntax { at: place + 2 }),
    }
}

/// Reads a declarator of a static declaration.
#[tactic(auto, using(crate::proofs::Budgets::budgets), unfolding(crate::specs::models::StatementParser::fixed_on))]
pub(crate) fn fixed(alloc: Global, tokens: &[Token], place: usize) -> Result<Parsed<Stmt>, Failure>
    requires { place ≤ length tokens.now }
    ensures gives { GivesParsed unit_statement_of result (fixed_on tokens.now (symbol_of (kind_at tokens.now place)) place) }
    ensures ends { IfOk result (λ parsed. (parsed.height ≡ 1) × (parsed.next ≤ length tokens.now) × (place < parsed.next)) }
{
    match symbol_at(tokens, place) {
        Some(symbol) => {
            expect(tokens, Mark::LeftBracket, place + 1)?;
            sized(alloc, tokens, symbol, place)
        }
        None => Err(Failure::Syntax { at: place }),
    }
}
