ghost use Rattle.std.specs.Prelude.{◌≡◌, ℕ, true, ◌+◌, ◌≤◌, List, length, IfOk, IsErrOf};
ghost use Rattle.pc_word.specs.SourceLimits.{most_tokens, most_height};
ghost use Rattle.pc_lexer.specs.Laws.{AreInOrder, symbols_in};
ghost use Rattle.pc_lexer.specs.declared.token.Token.{Token as TokenValue};
ghost use Rattle.pc_syntax.specs.Source.{SourceProgram};
ghost use Rattle.pc_syntax.specs.Erasure.{program_of};
ghost use Rattle.pc_syntax.specs.UnitErasure.{unit_list_of, unit_of};
ghost use Rattle.pc_syntax.specs.Unit.{TranslationUnit};
ghost use Rattle.pc_syntax.specs.Proper.{unit_is_proper};
ghost use Rattle.pc_syntax.specs.Plain.{HasNoCalls, plain_unit};
ghost use Rattle.pc_parser.specs.Statements.{ReadsProgram};
ghost use Rattle.pc_parser.specs.Units.{ReadsUnit, HasNamesBelow};
ghost use Rattle.pc_parser.specs.models.UnitParser.{unit_at};
ghost use Rattle.pc_parser.specs.models.StatementParser.{main_block, main_at, program_at};
ghost use Rattle.pc_parser.specs.models.Parsing.{GivesParsed, AtPlace};
ghost use Rattle.pc_parser.specs.Parse.{IsReadWithin, NothingReads, NothingReadsWithin, IsPlaceOfLine, RefusesTokens, error_line};
ghost use Rattle.pc_parser.specs.Parse.{IsUnitReadWithin, NothingReadsUnit, NothingReadsUnitWithin, RefusesUnit};
ghost use Rattle.pc_parser.specs.models.Parsing.{FailsInside, located};

use crate::calls::Calls;
use crate::function::source_unit;
use crate::outcome::{Failure, Parsed};
use crate::place::{expect, expect_key, is_key, kind_at};
use crate::statement::block;
use pc_lexer::{Keyword, Mark, Token, TokenList};
use pc_syntax::{Program, SourceUnit, StmtList};
use pc_word::MOST_HEIGHT;
use std::alloc::Global;
use thiserror::Error;

/// Why tokens are no program that this parser takes. `at` is the place of a token, counted from 0, and
/// `line` its line; or `at` is the number of tokens, and `line` the line of the last one, or 1 where
/// there is none.
#[derive(Clone, Copy, Debug, PartialEq, Eq, Error)]
pub enum ParseError {
    /// No program reads what begins with the tokens up to that place.
    #[error("syntax error at line {line}")]
    Syntax { at: u32, line: u32 },
    /// No program of the height that is allowed reads what begins with the tokens up to that place.
    #[error("too nested at line {line}")]
    TooNested { at: u32, line: u32 },
    /// Memory ran out.
    #[error("out of memory")]
    Memory,
}

/// The program that the grammar reads in the tokens (C17 6.5, 6.8 and 6.9, as far as the language has
/// them), where its height is at most 256: a number, a name and `read()` have the height 1, and each
/// operator, index, pair of parentheses, statement, block and loop is one higher than its highest part.
pub fn parse(alloc: Global, tokens: &TokenList) -> Result<Program, ParseError>
    requires { length tokens.now ≤ most_tokens }
    // What is given is what the grammar relates to the tokens.
    ensures read { IfOk result (λ program. IsReadWithin most_height tokens.now (program_of program)) }
    // It has no calls, so this says all of it.
    ensures plain { IfOk result (λ program. HasNoCalls program) }
    // A refusal, other than for want of memory, comes only where there is no such program.
    ensures refused { RefusesTokens result → (program : SourceProgram) → IsReadWithin most_height tokens.now program → ⊥ }
    // Where it comes, and why: whatever stands after the place, nothing reads it.
    ensures syntax { (at line : ℕ) → IsErrOf result (ParseError.Syntax at line) → IsPlaceOfLine tokens.now at line × NothingReads tokens.now at }
    ensures too_nested { (at line : ℕ) → IsErrOf result (ParseError.TooNested at line) → IsPlaceOfLine tokens.now at line × NothingReadsWithin most_height tokens.now at × (250 ≤ at) }
{
    match program(alloc, tokens.as_slice()) {
        Ok(parsed) => Ok(Program { items: parsed.tree }),
        Err(failure) => Err(located(tokens.as_slice(), failure)),
    }
}

/// The translation unit that the grammar reads in the tokens: functions (C17 6.9.1) before `main`, and calls
/// of them (C17 6.5.2.2) as statements, as the right side of `=` to a scalar and as the initialiser of a
/// scalar. Its height, which is that of the highest block, is at most 256; the arguments of a call count as
/// expressions of its statement. A `return` that is the last item of a function's block is its result.
pub fn parse_unit(alloc: Global, tokens: &TokenList) -> Result<SourceUnit, ParseError>
    requires { length tokens.now ≤ most_tokens }
    // What is given is what the grammar relates to the tokens.
    ensures read { IfOk result (λ source. IsUnitReadWithin most_height tokens.now (unit_of source)) }
    // Its declarators stand in lists, and its symbols are below each bound below which those of the tokens are.
    ensures proper { (base : ℕ) → HasNamesBelow base tokens.now → IfOk result (λ source. unit_is_proper base (unit_of source) ≡ true) }
    // A refusal, other than for want of memory, comes only where there is no such unit.
    ensures refused { RefusesUnit result → (unit : TranslationUnit) → IsUnitReadWithin most_height tokens.now unit → ⊥ }
    // Where it comes, and why: whatever stands after the place, nothing reads it.
    ensures syntax { (at line : ℕ) → IsErrOf result (ParseError.Syntax at line) → IsPlaceOfLine tokens.now at line × NothingReadsUnit tokens.now at }
    ensures too_nested { (at line : ℕ) → IsErrOf result (ParseError.TooNested at line) → IsPlaceOfLine tokens.now at line × NothingReadsUnitWithin most_height tokens.now at × (250 ≤ at) }
{
    match source_unit(alloc, tokens.as_slice()) {
        Ok(parsed) => Ok(parsed.tree),
        Err(failure) => Err(located(tokens.as_slice(), failure)),
    }
}

/// The failure with its line.
fn located(tokens: &[Token], failure: Failure) -> ParseError
    requires few { length tokens.now ≤ most_tokens }
    requires inside { FailsInside failure (length tokens.now) }
    ensures { result ≡ located tokens.now failure }
{
    match failure {
        Failure::Memory => ParseError::Memory,
        Failure::Syntax { at } => ParseError::Syntax {
            at: at as u32,
            line: error_line(tokens, at),
        },
        Failure::TooNested { at } => ParseError::TooNested {
            at: at as u32,
            line: error_line(tokens, at),
        },
    }
}

/// The line of the token at a place, or of the last token, or 1.
fn error_line(tokens: &[Token], at: usize) -> u32
    ensures { result ≡ error_line tokens.now at }
{
    match tokens.get(at) {
        Some(token) => token.line,
        None => match tokens.get(tokens.len().saturating_sub(1)) {
            Some(token) => token.line,
            None => 1,
        },
    }
}

/// Reads the program that the tokens are.
#[tactic(auto, unfolding(crate::specs::models::StatementParser::program_at))]
fn program(alloc: Global, tokens: &[Token]) -> Result<Parsed<StmtList>, Failure>
    requires { length tokens.now ≤ most_tokens }
    ensures { GivesParsed unit_list_of result (program_at tokens.now most_height) }
{
    expect_key(tokens, Keyword::Int, 0)?;
    main_at(alloc, tokens, Calls::Refused, 1)
}

/// Reads the `main` at a place, with nothing after it.
#[tactic(auto, using(crate::proofs::Budgets::budgets), unfolding(crate::specs::models::StatementParser::main_at))]
pub(crate) fn main_at(
    alloc: Global,
    tokens: &[Token],
    calls: Calls,
    place: usize,
) -> Result<Parsed<StmtList>, Failure>
    requires few { length tokens.now ≤ most_tokens }
    requires inside { place ≤ length tokens.now }
    ensures { GivesParsed unit_list_of result (main_at tokens.now calls most_height place) }
{
    expect_key(tokens, Keyword::Main, place)?;
    expect(tokens, Mark::LeftParen, place + 1)?;
    if is_key(tokens, Keyword::Void, place + 2) {
        return main_block(alloc, tokens, calls, place + 3);
    }
    main_block(alloc, tokens, calls, place + 2)
}

/// Reads the block of `main`, after its parentheses, with nothing after it.
#[tactic(auto, using(crate::proofs::Budgets::budgets), unfolding(crate::specs::models::StatementParser::main_block, crate::specs::models::StatementParser::nothing_behind))]
fn main_block(
    alloc: Global,
    tokens: &[Token],
    calls: Calls,
    place: usize,
) -> Result<Parsed<StmtList>, Failure>
    requires few { length tokens.now ≤ most_tokens }
    requires inside { place ≤ length tokens.now }
    ensures { GivesParsed unit_list_of result (main_block tokens.now calls most_height place) }
{
    expect(tokens, Mark::RightParen, place)?;
    expect(tokens, Mark::LeftBrace, place + 1)?;
    let items = block(alloc, tokens, calls, MOST_HEIGHT, place + 1)?;
    match kind_at(tokens, items.next) {
        None => Ok(items),
        Some(_) => Err(Failure::Syntax { at: items.next }),
    }
}

/// At most one program reads given tokens, and it has one height.
pub fn one_program()
    ensures { (tokens : List TokenValue) (one other : SourceProgram) (height raised : ℕ) → ReadsProgram tokens one height → ReadsProgram tokens other raised → (one ≡ other) × (height ≡ raised) }
{}

/// At most one unit reads given tokens, and it has one height.
pub fn one_unit()
    ensures { (tokens : List TokenValue) (one other : TranslationUnit) (height raised : ℕ) → ReadsUnit tokens one height → ReadsUnit tokens other raised → (one ≡ other) × (height ≡ raised) }
{}

/// A program is read as a unit without functions, of the same height.
pub fn program_is_unit()
    ensures { (tokens : List TokenValue) (program : SourceProgram) (height : ℕ) → ReadsProgram tokens program height → ReadsUnit tokens (plain_unit program) height }
{}

/// The symbols that the lexer gives are below the number of tokens.
pub fn names_are_below()
    ensures { (base : ℕ) (tokens : List TokenValue) → AreInOrder 0 (symbols_in tokens) → length tokens ≤ base → HasNamesBelow base tokens }
{}
