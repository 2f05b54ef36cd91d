//! The lines of expressions.
ghost use Rattle.std.specs.Prelude.{◌≡◌, ◌++◌, option_map, OnOk};
ghost use Rattle.pc_syntax.specs.Erasure.{expression_of};
ghost use Rattle.pc_lines.specs.Lines.{expression_lines, optional_lines};

use crate::LineList;
use crate::line_list::{push_nodes, push_operator};
use pc_syntax::Expr;
use std::alloc::AllocError;

/// Appends the lines of an expression's nodes, which stands in something at this line.
#[tactic(auto, using(crate::proofs::Forms::expressions))]
pub(crate) fn push_expression(
    lines: &mut LineList,
    around: u32,
    expression: &Expr,
) -> Result<(), AllocError>
    ensures { OnOk result (lines.new ≡ lines.old ++ expression_lines around (expression_of expression.now)) }
{
    match expression {
        Expr::Lit { .. } | Expr::Name { .. } => Ok(()),
        Expr::Read { line } => push_nodes(lines, 4, *line),
        Expr::Element { at, index, .. } => {
            push_expression(lines, *at, index)?;
            push_nodes(lines, 4, *at)
        }
        Expr::Unary { of, .. } => {
            push_expression(lines, around, of)?;
            push_nodes(lines, 1, around)
        }
        Expr::Binary {
            op,
            at,
            left,
            right,
        } => {
            push_expression(lines, *at, left)?;
            push_expression(lines, *at, right)?;
            push_operator(lines, *op, *at)
        }
        Expr::Both { left, right } | Expr::Either { left, right } => {
            push_expression(lines, around, left)?;
            push_nodes(lines, 1, around)?;
            push_expression(lines, around, right)?;
            push_nodes(lines, 2, around)
        }
        Expr::Choose { test, yes, no } => {
            push_expression(lines, around, test)?;
            push_nodes(lines, 1, around)?;
            push_expression(lines, around, yes)?;
            push_nodes(lines, 1, around)?;
            push_expression(lines, around, no)?;
            push_nodes(lines, 1, around)
        }
    }
}

/// Appends the lines of an expression that may be left out.
pub(crate) fn push_optional(
    lines: &mut LineList,
    around: u32,
    expression: &Option<Expr>,
) -> Result<(), AllocError>
    ensures { OnOk result (lines.new ≡ lines.old ++ optional_lines around (option_map expression_of expression.now)) }
{
    match expression {
        None => Ok(()),
        Some(expression) => push_expression(lines, around, expression),
    }
}
