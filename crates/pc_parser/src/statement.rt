ghost use Rattle.std.specs.Prelude.{◌≡◌, ◌+◌, ◌-◌, ◌<◌, ◌≤◌, length, IfOk};
ghost use Rattle.pc_syntax.specs.Erasure.{expression_of};
ghost use Rattle.pc_syntax.specs.UnitErasure.{unit_statement_of, unit_list_of};
ghost use Rattle.pc_parser.specs.models.StatementParser.{block_at, items_at, item_at, otherwise_at, branch_at, lone, return_at, ended_at, keyed, started, statement_at, statement_below};
ghost use Rattle.pc_parser.specs.models.Parsing.{GivesParsed, AtPlace, UpTo, behind};

use crate::calls::Calls;
use crate::declaration::{declaration, static_declaration};
use crate::expression::{EXPRESSION, expression};
use crate::loops::{do_loop, for_loop, while_loop};
use crate::outcome::{Failure, Parsed, within};
use crate::place::{expect, is_key, is_mark, kind_at, line_at};
use crate::simple::{close, simple, test};
use crate::tree::branch_tree;
use pc_lexer::{Keyword, Mark, Token, TokenKind};
use pc_syntax::{Expr, Stmt, StmtList};
use pc_word::Seq;
use std::alloc::Global;

/// Reads a statement, of at most the budget's height.
#[cycle(statement)]
#[tactic(auto, using(crate::proofs::Budgets::budgets), unfolding(crate::specs::models::StatementParser::statement_from, crate::specs::models::StatementParser::statement_on))]
pub(crate) fn statement(
    alloc: Global,
    tokens: &[Token],
    calls: Calls,
    budget: usize,
    place: usize,
) -> Result<Parsed<Stmt>, Failure>
    requires { AtPlace tokens.now budget place }
    ensures gives { GivesParsed unit_statement_of result (statement_at tokens.now calls budget place) }
    ensures ends { IfOk result (λ parsed. UpTo tokens.now budget parsed.height parsed.next) }
{
    match kind_at(tokens, place) {
        Some(TokenKind::Key { key }) => keyed(alloc, tokens, calls, budget, key, place),
        Some(TokenKind::Mark { mark }) => started(alloc, tokens, calls, budget, mark, place),
        Some(TokenKind::Name { .. }) => ended(alloc, tokens, calls, budget, place),
        Some(TokenKind::Number { .. }) => ended(alloc, tokens, calls, budget, place),
        None => ended(alloc, tokens, calls, budget, place),
    }
}

/// Reads a simple statement with its `;`.
#[tactic(auto, using(crate::proofs::Budgets::budgets), unfolding(crate::specs::models::StatementParser::ended_at, crate::specs::models::StatementParser::closed))]
pub(crate) fn ended(
    alloc: Global,
    tokens: &[Token],
    calls: Calls,
    budget: usize,
    place: usize,
) -> Result<Parsed<Stmt>, Failure>
    requires { AtPlace tokens.now budget place }
    ensures gives { GivesParsed unit_statement_of result (ended_at tokens.now calls budget place) }
    ensures ends { IfOk result (λ parsed. UpTo tokens.now budget parsed.height parsed.next) }
{
    let tree = simple(alloc, tokens, calls, budget, place)?;
    close(tokens, Mark::Semicolon, budget, tree)
}

/// Reads the statement that a keyword begins.
#[cycle(statement)]
#[tactic(auto, using(crate::proofs::Budgets::budgets, crate::proofs::Budgets::tree_forms), unfolding(crate::specs::models::StatementParser::keyed))]
fn keyed(
    alloc: Global,
    tokens: &[Token],
    calls: Calls,
    budget: usize,
    key: Keyword,
    place: usize,
) -> Result<Parsed<Stmt>, Failure>
    requires stands { AtPlace tokens.now budget place }
    requires more { place + 1 ≤ length tokens.now }
    ensures gives { GivesParsed unit_statement_of result (keyed tokens.now calls (statement_below tokens.now calls budget) budget key place) }
    ensures ends { IfOk result (λ parsed. UpTo tokens.now budget parsed.height parsed.next) }
{
    match key {
        Keyword::If => branch(alloc, tokens, calls, budget, place),
        Keyword::While => while_loop(alloc, tokens, calls, budget, place),
        Keyword::Do => do_loop(alloc, tokens, calls, budget, place),
        Keyword::For => for_loop(alloc, tokens, calls, budget, place),
        Keyword::Break => {
            let line = line_at(tokens, place);
            lone(tokens, budget, Stmt::Break { line }, place)
        }
        Keyword::Continue => {
            let line = line_at(tokens, place);
            lone(tokens, budget, Stmt::Continue { line }, place)
        }
        Keyword::Return => return_from(alloc, tokens, budget, place),
        _ => ended(alloc, tokens, calls, budget, place),
    }
}

/// Reads the statement that a mark begins.
#[cycle(statement)]
#[tactic(auto, using(crate::proofs::Budgets::budgets, crate::proofs::Budgets::tree_forms), unfolding(crate::specs::models::StatementParser::started))]
fn started(
    alloc: Global,
    tokens: &[Token],
    calls: Calls,
    budget: usize,
    mark: Mark,
    place: usize,
) -> Result<Parsed<Stmt>, Failure>
    requires stands { AtPlace tokens.now budget place }
    requires more { place + 1 ≤ length tokens.now }
    ensures gives { GivesParsed unit_statement_of result (started tokens.now calls (statement_below tokens.now calls budget) budget mark place) }
    ensures ends { IfOk result (λ parsed. UpTo tokens.now budget parsed.height parsed.next) }
{
    match mark {
        Mark::LeftBrace => {
            let items = block(alloc, tokens, calls, budget, place)?;
            Ok(Parsed {
                tree: Stmt::Block { items: items.tree },
                height: items.height,
                next: items.next,
            })
        }
        Mark::Semicolon => {
            within(1, budget, place)?;
            Ok(Parsed {
                tree: Stmt::Empty,
                height: 1,
                next: place + 1,
            })
        }
        _ => ended(alloc, tokens, calls, budget, place),
    }
}

/// Reads a block, whose `{` stands at the place.
#[cycle(statement)]
#[tactic(auto, using(crate::proofs::Budgets::budgets), unfolding(crate::specs::models::StatementParser::block_at))]
pub(crate) fn block(
    alloc: Global,
    tokens: &[Token],
    calls: Calls,
    budget: usize,
    place: usize,
) -> Result<Parsed<StmtList>, Failure>
    requires stands { AtPlace tokens.now budget place }
    requires more { place + 1 ≤ length tokens.now }
    ensures gives { GivesParsed unit_list_of result (block_at tokens.now calls (statement_below tokens.now calls budget) budget place) }
    ensures ends { IfOk result (λ parsed. UpTo tokens.now budget parsed.height parsed.next) }
{
    within(1, budget, place)?;
    let items = items(alloc, tokens, calls, budget, place + 1)?;
    Ok(Parsed {
        tree: items.tree,
        height: items.height + 1,
        next: items.next,
    })
}

/// Reads declarations and statements up to a `}`.
#[cycle(statement)]
fn items(
    alloc: Global,
    tokens: &[Token],
    calls: Calls,
    budget: usize,
    place: usize,
) -> Result<Parsed<StmtList>, Failure>
    requires stands { AtPlace tokens.now budget place }
    requires some { 1 ≤ budget }
    ensures gives { GivesParsed unit_list_of result (items_at tokens.now calls (statement_below tokens.now calls budget) budget (length tokens.now + 1) place) }
    ensures ends { IfOk result (λ parsed. UpTo tokens.now (budget - 1) parsed.height parsed.next) }
{
    let mut items = Seq::new(alloc);
    let mut height = 0usize;
    let mut next = place;
    while !is_mark(tokens, Mark::RightBrace, next) {
        let more = item(alloc, tokens, calls, budget, items, next)?;
        items = more.tree;
        height = height.max(more.height);
        next = more.next;
    }
    Ok(Parsed {
        tree: items,
        height,
        next: next + 1,
    })
}

/// Reads a declaration or a statement, and appends what it gives to the items before it. The height is
/// that of what was read.
#[cycle(statement)]
#[tactic(auto, using(crate::proofs::Budgets::budgets, crate::proofs::Budgets::tree_forms), unfolding(crate::specs::models::StatementParser::item_at))]
fn item(
    alloc: Global,
    tokens: &[Token],
    calls: Calls,
    budget: usize,
    mut items: StmtList,
    place: usize,
) -> Result<Parsed<StmtList>, Failure>
    requires stands { AtPlace tokens.now budget place }
    requires some { 1 ≤ budget }
    ensures gives { GivesParsed unit_list_of result (behind (unit_list_of items) (item_at tokens.now calls (statement_below tokens.now calls budget) budget place)) }
    ensures ends { IfOk result (λ parsed. UpTo tokens.now (budget - 1) parsed.height parsed.next) }
    ensures further { IfOk result (λ parsed. place < parsed.next) }
{
    if is_key(tokens, Keyword::Int, place) {
        return declaration(alloc, tokens, calls, budget - 1, items, place);
    }
    if is_key(tokens, Keyword::Static, place) {
        return static_declaration(alloc, tokens, calls, budget - 1, items, place);
    }
    let stated = statement(alloc, tokens, calls, budget - 1, place)?;
    items.push(stated.tree)?;
    Ok(Parsed {
        tree: items,
        height: stated.height,
        next: stated.next,
    })
}

/// Reads an `if`.
#[cycle(statement)]
#[tactic(auto, using(crate::proofs::Budgets::budgets), unfolding(crate::specs::models::StatementParser::branch_at))]
fn branch(
    alloc: Global,
    tokens: &[Token],
    calls: Calls,
    budget: usize,
    place: usize,
) -> Result<Parsed<Stmt>, Failure>
    requires stands { AtPlace tokens.now budget place }
    requires more { place + 1 ≤ length tokens.now }
    ensures gives { GivesParsed unit_statement_of result (branch_at tokens.now (statement_below tokens.now calls budget) budget place) }
    ensures ends { IfOk result (λ parsed. UpTo tokens.now budget parsed.height parsed.next) }
{
    within(2, budget, place)?;
    let condition = test(alloc, tokens, budget - 1, place + 1)?;
    let body = statement(alloc, tokens, calls, budget - 1, condition.next)?;
    let line = line_at(tokens, place);
    otherwise(alloc, tokens, calls, budget, line, condition, body)
}

/// Reads the `else` of an `if`, where it follows.
#[cycle(statement)]
#[tactic(auto, using(crate::proofs::Budgets::budgets), unfolding(crate::specs::models::StatementParser::otherwise_at))]
fn otherwise(
    alloc: Global,
    tokens: &[Token],
    calls: Calls,
    budget: usize,
    line: u32,
    condition: Parsed<Expr>,
    body: Parsed<Stmt>,
) -> Result<Parsed<Stmt>, Failure>
    requires stands { AtPlace tokens.now budget body.next }
    requires some { 1 ≤ budget }
    requires low { condition.height + 1 ≤ budget }
    requires low_body { body.height + 1 ≤ budget }
    ensures gives { GivesParsed unit_statement_of result (otherwise_at tokens.now (statement_below tokens.now calls budget) budget line (expression_of condition.tree)
        (unit_statement_of body.tree) condition.height body.height body.next) }
    ensures ends { IfOk result (λ parsed. UpTo tokens.now budget parsed.height parsed.next) }
{
    let at = body.next;
    if !is_key(tokens, Keyword::Else, at) {
        let height = condition.height.max(body.height) + 1;
        let tree = branch_tree(alloc, line, condition.tree, body.tree, None)?;
        return Ok(Parsed {
            tree,
            height,
            next: at,
        });
    }
    let other = statement(alloc, tokens, calls, budget - 1, at + 1)?;
    let height = condition.height.max(body.height.max(other.height)) + 1;
    let next = other.next;
    let no = Some(other.tree);
    let tree = branch_tree(alloc, line, condition.tree, body.tree, no)?;
    Ok(Parsed { tree, height, next })
}

/// Reads the `;` of a `break` or a `continue`.
#[tactic(auto, using(crate::proofs::Budgets::budgets), unfolding(crate::specs::models::StatementParser::lone))]
fn lone(tokens: &[Token], budget: usize, tree: Stmt, place: usize) -> Result<Parsed<Stmt>, Failure>
    requires { AtPlace tokens.now budget place }
    ensures gives { GivesParsed unit_statement_of result (lone tokens.now budget (unit_statement_of tree) place) }
    ensures ends { IfOk result (λ parsed. UpTo tokens.now budget parsed.height parsed.next) }
{
    within(1, budget, place)?;
    expect(tokens, Mark::Semicolon, place + 1)?;
    Ok(Parsed {
        tree,
        height: 1,
        next: place + 2,
    })
}

/// Reads a `return`.
#[tactic(auto, using(crate::proofs::Budgets::budgets, crate::proofs::Budgets::tree_forms), unfolding(crate::specs::models::StatementParser::return_at))]
fn return_from(
    alloc: Global,
    tokens: &[Token],
    budget: usize,
    place: usize,
) -> Result<Parsed<Stmt>, Failure>
    requires stands { AtPlace tokens.now budget place }
    requires more { place + 1 ≤ length tokens.now }
    ensures gives { GivesParsed unit_statement_of result (return_at tokens.now budget place) }
    ensures ends { IfOk result (λ parsed. UpTo tokens.now budget parsed.height parsed.next) }
{
    within(2, budget, place)?;
    let value = expression(alloc, tokens, budget - 1, EXPRESSION, place + 1)?;
    expect(tokens, Mark::Semicolon, value.next)?;
    let line = line_at(tokens, place);
    Ok(Parsed {
        tree: Stmt::Return {
            line,
            value: value.tree,
        },
        height: value.height + 1,
        next: value.next + 1,
    })
}
