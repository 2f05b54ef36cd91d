ghost use Rattle.std.specs.Prelude.{◌≡◌, true, IfOk, option_map, map};
ghost use Rattle.pc_syntax.specs.Source.{Variable, Indexed};
ghost use Rattle.pc_syntax.specs.models.Parts.{is_combined};
ghost use Rattle.pc_syntax.specs.Erasure.{expression_of};

use crate::operator::{BinaryOp, UnaryOp};
use crate::program::SyntaxError;
use pc_word::Seq;
use std::alloc::Global;

/// An expression.
///
/// Each `line` is the line of the expression's first token, and each `at` the line of its operator or
/// of its `[`. Parentheses and unary `+` leave no node.
#[derive(Debug, Drop)]
pub enum Expr {
    Lit {
        value: i32,
    },
    Name {
        symbol: u32,
        line: u32,
    },
    /// `read()`
    Read {
        line: u32,
    },
    /// An element of an array.
    Element {
        symbol: u32,
        line: u32,
        at: u32,
        index: Box<Expr>,
    },
    Unary {
        op: UnaryOp,
        of: Box<Expr>,
    },
    Binary {
        op: BinaryOp,
        at: u32,
        left: Box<Expr>,
        right: Box<Expr>,
    },
    /// `left && right`
    Both {
        left: Box<Expr>,
        right: Box<Expr>,
    },
    /// `left || right`
    Either {
        left: Box<Expr>,
        right: Box<Expr>,
    },
    /// `test ? yes : no`
    Choose {
        test: Box<Expr>,
        yes: Box<Expr>,
        no: Box<Expr>,
    },
}

/// Expressions in order.
pub type ExprList = Seq<Expr>;

/// An equal expression, in memory of its own.
#[cycle(copy_expression)]
#[tactic(auto, using(crate::proofs::ErasureLaws::expression_forms))]
pub(crate) fn copy_expression(alloc: Global, from: &Expr) -> Result<Expr, SyntaxError>
    ensures { IfOk result (λ copy. expression_of copy ≡ expression_of from.now) }
{
    match from {
        Expr::Lit { value } => Ok(Expr::Lit { value: *value }),
        Expr::Name { symbol, line } => Ok(name(*symbol, *line)),
        Expr::Read { line } => Ok(Expr::Read { line: *line }),
        Expr::Element {
            symbol,
            line,
            at,
            index,
        } => copy_element(alloc, index, *symbol, *line, *at),
        Expr::Unary { op, of } => {
            let of = copy_boxed(alloc, of)?;
            Ok(Expr::Unary { op: *op, of })
        }
        Expr::Binary { .. } | Expr::Both { .. } | Expr::Either { .. } => {
            copy_combined(alloc, from)
        }
        Expr::Choose { test, yes, no } => {
            let test = copy_boxed(alloc, test)?;
            let yes = copy_boxed(alloc, yes)?;
            let no = copy_boxed(alloc, no)?;
            Ok(Expr::Choose { test, yes, no })
        }
    }
}

/// The same of an operator with two operands.
#[cycle(copy_expression)]
#[tactic(auto, using(crate::proofs::ErasureLaws::expression_forms))]
fn copy_combined(alloc: Global, from: &Expr) -> Result<Expr, SyntaxError>
    requires { is_combined (expression_of from.now) ≡ true }
    ensures { IfOk result (λ copy. expression_of copy ≡ expression_of from.now) }
{
    match from {
        Expr::Binary {
            op,
            at,
            left,
            right,
        } => {
            let left = copy_boxed(alloc, left)?;
            let right = copy_boxed(alloc, right)?;
            Ok(Expr::Binary {
                op: *op,
                at: *at,
                left,
                right,
            })
        }
        Expr::Both { left, right } => {
            let left = copy_boxed(alloc, left)?;
            let right = copy_boxed(alloc, right)?;
            Ok(Expr::Both { left, right })
        }
        Expr::Either { left, right } => {
            let left = copy_boxed(alloc, left)?;
            let right = copy_boxed(alloc, right)?;
            Ok(Expr::Either { left, right })
        }
        Expr::Lit { .. } | Expr::Name { .. } | Expr::Read { .. } => unreachable!(),
        Expr::Element { .. } | Expr::Unary { .. } | Expr::Choose { .. } => unreachable!(),
    }
}

/// A name.
#[tactic(auto, using(crate::proofs::ErasureLaws::expression_forms))]
fn name(symbol: u32, line: u32) -> Expr
    ensures { expression_of result ≡ Variable symbol line }
{
    Expr::Name { symbol, line }
}

/// An element, with a copy of its index.
#[cycle(copy_expression)]
#[tactic(auto, using(crate::proofs::ErasureLaws::expression_forms))]
fn copy_element(
    alloc: Global,
    index: &Expr,
    symbol: u32,
    line: u32,
    at: u32,
) -> Result<Expr, SyntaxError>
    ensures { IfOk result (λ copy. expression_of copy ≡ Indexed symbol line at (expression_of index.now)) }
{
    let index = copy_boxed(alloc, index)?;
    Ok(Expr::Element {
        symbol,
        line,
        at,
        index,
    })
}

/// An equal expression, in a box of its own.
#[cycle(copy_expression)]
fn copy_boxed(alloc: Global, from: &Expr) -> Result<Box<Expr>, SyntaxError>
    ensures { IfOk result (λ copy. expression_of copy.value ≡ expression_of from.now) }
{
    let copy = copy_expression(alloc, from)?;
    Ok(Box::new(alloc, copy)?)
}

/// An equal expression, where there is one.
pub(crate) fn copy_optional(alloc: Global, from: &Option<Expr>) -> Result<Option<Expr>, SyntaxError>
    ensures { IfOk result (λ copy. option_map expression_of copy ≡ option_map expression_of from.now) }
{
    match from {
        None => Ok(None),
        Some(from) => {
            let copy = copy_expression(alloc, from)?;
            Ok(Some(copy))
        }
    }
}

/// Equal expressions, in a list of their own.
pub(crate) fn copy_expressions(alloc: Global, from: &ExprList) -> Result<ExprList, SyntaxError>
    ensures { IfOk result (λ copy. map expression_of copy ≡ map expression_of from.now) }
{
    let mut copies = Seq::new(alloc);
    for item in from.as_slice() {
        let copy = copy_expression(alloc, item)?;
        copies.push(copy)?;
    }
    Ok(copies)
}
