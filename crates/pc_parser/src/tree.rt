ghost use Rattle.std.specs.Prelude.{◌≡◌, MatchResult};
ghost use Rattle.pc_syntax.specs.Source.{Combined, Conjunction, Disjunction, Conditional};
ghost use Rattle.pc_syntax.specs.Unit.{If, While, Do, For};
ghost use Rattle.pc_syntax.specs.Erasure.{expression_of};
ghost use Rattle.pc_syntax.specs.UnitErasure.{unit_statement_of, unit_list_of, unit_optional_of};
ghost use Rattle.pc_parser.specs.models.Parsing.{optional_tree};
ghost use Rattle.pc_parser.specs.Operators.{infixed, prefixed};
ghost use Rattle.pc_parser.specs.declared.outcome.Failure.TheVariants.{Memory};

use crate::operator::Operator;
use crate::outcome::Failure;
use pc_syntax::{BinaryOp, Expr, Stmt, StmtList, UnaryOp};
use std::alloc::Global;

/// Two operands, joined by an operator of this line.
pub(crate) fn join_trees(
    alloc: Global,
    operator: Operator,
    at: u32,
    left: Expr,
    right: Expr,
) -> Result<Expr, Failure>
    ensures { MatchResult result (λ tree. expression_of tree ≡ infixed operator at (expression_of left) (expression_of right)) (λ failure. failure ≡ Memory) }
{
    match operator {
        Operator::Binary(op) => binary(alloc, op, at, left, right),
        Operator::Both => both(alloc, left, right),
        Operator::Either => either(alloc, left, right),
    }
}

#[tactic(auto, using(pc_syntax::proofs::ErasureLaws::expression_forms))]
fn binary(alloc: Global, op: BinaryOp, at: u32, left: Expr, right: Expr) -> Result<Expr, Failure>
    ensures { MatchResult result (λ tree. expression_of tree ≡ Combined op at (expression_of left) (expression_of right)) (λ failure. failure ≡ Memory) }
{
    let left = Box::new(alloc, left)?;
    let right = Box::new(alloc, right)?;
    Ok(Expr::Binary {
        op,
        at,
        left,
        right,
    })
}

#[tactic(auto, using(pc_syntax::proofs::ErasureLaws::expression_forms))]
fn both(alloc: Global, left: Expr, right: Expr) -> Result<Expr, Failure>
    ensures { MatchResult result (λ tree. expression_of tree ≡ Conjunction (expression_of left) (expression_of right)) (λ failure. failure ≡ Memory) }
{
    let left = Box::new(alloc, left)?;
    let right = Box::new(alloc, right)?;
    Ok(Expr::Both { left, right })
}

#[tactic(auto, using(pc_syntax::proofs::ErasureLaws::expression_forms))]
fn either(alloc: Global, left: Expr, right: Expr) -> Result<Expr, Failure>
    ensures { MatchResult result (λ tree. expression_of tree ≡ Disjunction (expression_of left) (expression_of right)) (λ failure. failure ≡ Memory) }
{
    let left = Box::new(alloc, left)?;
    let right = Box::new(alloc, right)?;
    Ok(Expr::Either { left, right })
}

/// `test ? yes : no`.
#[tactic(auto, using(pc_syntax::proofs::ErasureLaws::expression_forms))]
pub(crate) fn choose(alloc: Global, test: Expr, yes: Expr, no: Expr) -> Result<Expr, Failure>
    ensures { MatchResult result (λ tree. expression_of tree ≡ Conditional (expression_of test) (expression_of yes) (expression_of no)) (λ failure. failure ≡ Memory) }
{
    let test = Box::new(alloc, test)?;
    let yes = Box::new(alloc, yes)?;
    let no = Box::new(alloc, no)?;
    Ok(Expr::Choose { test, yes, no })
}

/// An operand under a unary operator, or under `+`, which leaves no node.
#[tactic(auto, using(pc_syntax::proofs::ErasureLaws::expression_forms))]
pub(crate) fn prefix(alloc: Global, sign: Option<UnaryOp>, operand: Expr) -> Result<Expr, Failure>
    ensures { MatchResult result (λ tree. expression_of tree ≡ prefixed sign (expression_of operand)) (λ failure. failure ≡ Memory) }
{
    match sign {
        None => Ok(operand),
        Some(op) => {
            let of = Box::new(alloc, operand)?;
            Ok(Expr::Unary { op, of })
        }
    }
}

/// An `if`, with the statement of its `else` where it has one.
#[tactic(auto, using(pc_syntax::proofs::UnitLaws::unit_forms), unfolding(pc_syntax::specs::UnitErasure::unit_optional_of))]
pub(crate) fn branch_tree(
    alloc: Global,
    line: u32,
    test: Expr,
    yes: Stmt,
    no: Option<Stmt>,
) -> Result<Stmt, Failure>
    ensures { MatchResult result (λ tree. unit_statement_of tree ≡ If line (expression_of test) (unit_statement_of yes) (optional_tree no)) (λ failure. failure ≡ Memory) }
{
    let yes = Box::new(alloc, yes)?;
    match no {
        None => Ok(Stmt::If {
            line,
            test,
            yes,
            no: None,
        }),
        Some(no) => {
            let no = Box::new(alloc, no)?;
            Ok(Stmt::If {
                line,
                test,
                yes,
                no: Some(no),
            })
        }
    }
}

/// A `while`.
#[tactic(auto, using(pc_syntax::proofs::UnitLaws::unit_forms))]
pub(crate) fn while_tree(alloc: Global, line: u32, test: Expr, body: Stmt) -> Result<Stmt, Failure>
    ensures { MatchResult result (λ tree. unit_statement_of tree ≡ While line (expression_of test) (unit_statement_of body)) (λ failure. failure ≡ Memory) }
{
    let body = Box::new(alloc, body)?;
    Ok(Stmt::While { line, test, body })
}

/// A `do`.
#[tactic(auto, using(pc_syntax::proofs::UnitLaws::unit_forms))]
pub(crate) fn do_tree(alloc: Global, line: u32, body: Stmt, test: Expr) -> Result<Stmt, Failure>
    ensures { MatchResult result (λ tree. unit_statement_of tree ≡ Do line (unit_statement_of body) (expression_of test)) (λ failure. failure ≡ Memory) }
{
    let body = Box::new(alloc, body)?;
    Ok(Stmt::Do { line, body, test })
}

/// What stands before the body of a `for`.
#[derive(Debug, Drop)]
pub(crate) struct ForHead {
    pub(crate) line: u32,
    pub(crate) first: StmtList,
    pub(crate) condition: Expr,
    pub(crate) step: Option<Box<Stmt>>,
}

/// A `for`.
#[tactic(auto, using(pc_syntax::proofs::UnitLaws::unit_forms))]
pub(crate) fn for_tree(alloc: Global, head: ForHead, body: Stmt) -> Result<Stmt, Failure>
    ensures { MatchResult result (λ tree. unit_statement_of tree ≡ For head.line (unit_list_of head.first) (expression_of head.condition) (unit_optional_of head.step)
        (unit_statement_of body)) (λ failure. failure ≡ Memory) }
{
    let body = Box::new(alloc, body)?;
    let ForHead {
        line,
        first,
        condition,
        step,
    } = head;
    Ok(Stmt::For {
        line,
        first,
        test: condition,
        step,
        body,
    })
}
