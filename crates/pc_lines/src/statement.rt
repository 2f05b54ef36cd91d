//! The lines of statements.
ghost use Rattle.std.specs.Prelude.{◌≡◌, ◌++◌, option_map, replicate, OnOk};
ghost use Rattle.pc_syntax.specs.Erasure.{expression_of, statement_of, optional_of, list_of};
ghost use Rattle.pc_lines.specs.Lines.{expression_lines, assignment_lines, compound_lines, statement_lines, branch_lines, list_lines};

use crate::LineList;
use crate::expression::{push_expression, push_optional};
use crate::line_list::{push_nodes, push_operator};
use pc_syntax::{BinaryOp, Expr, Stmt, StmtList};
use std::alloc::AllocError;

/// The places of an assignment: the lines of its name, of its bracket and of its operator.
#[derive(Clone, Copy, Debug)]
pub(crate) struct Places {
    pub line: u32,
    pub bracket: u32,
    pub at: u32,
}

/// Appends the lines of a compound assignment's operator.
fn push_compound(lines: &mut LineList, op: Option<BinaryOp>, at: u32) -> Result<(), AllocError>
    ensures { OnOk result (lines.new ≡ lines.old ++ compound_lines op at) }
{
    match op {
        None => Ok(()),
        Some(op) => push_operator(lines, op, at),
    }
}

/// Appends the lines of an assignment's nodes.
fn push_assignment(
    lines: &mut LineList,
    places: Places,
    index: &Option<Expr>,
    op: Option<BinaryOp>,
    value: &Expr,
) -> Result<(), AllocError>
    ensures { OnOk result (lines.new ≡ lines.old
        ++ assignment_lines places.line (option_map expression_of index.now) places.bracket op places.at (expression_of value.now)) }
{
    let Places { line, bracket, at } = places;
    let Some(index) = index else {
        push_expression(lines, line, value)?;
        push_compound(lines, op, at)?;
        return push_nodes(lines, 1, line);
    };
    push_expression(lines, bracket, index)?;
    match op {
        None => {
            push_expression(lines, line, value)?;
            push_nodes(lines, 3, bracket)?;
            push_nodes(lines, 1, line)
        }
        Some(op) => {
            push_nodes(lines, 4, bracket)?;
            push_expression(lines, line, value)?;
            push_operator(lines, op, at)?;
            push_nodes(lines, 1, line)
        }
    }
}

/// Appends the lines of a condition's nodes: those of its value, and of its test.
fn push_condition(lines: &mut LineList, line: u32, test: &Expr) -> Result<(), AllocError>
    ensures { OnOk result (lines.new ≡ lines.old ++ (expression_lines line (expression_of test.now) ++ replicate 1 line)) }
{
    push_expression(lines, line, test)?;
    push_nodes(lines, 1, line)
}

/// Appends the lines of a statement's nodes.
#[cycle(push_statement)]
#[tactic(auto, using(crate::proofs::Forms::statements))]
fn push_statement(lines: &mut LineList, statement: &Stmt) -> Result<(), AllocError>
    ensures { OnOk result (lines.new ≡ lines.old ++ statement_lines (statement_of statement.now)) }
{
    match statement {
        Stmt::Block { items } => push_list(lines, items),
        Stmt::Scalar { line, init, .. } => {
            push_optional(lines, *line, init)?;
            push_nodes(lines, 1, *line)
        }
        Stmt::Assign {
            line,
            index,
            bracket,
            op,
            at,
            value,
            ..
        } => {
            let places = Places {
                line: *line,
                bracket: *bracket,
                at: *at,
            };
            push_assignment(lines, places, index, *op, value)
        }
        Stmt::Print { line, value } => push_condition(lines, *line, value),
        Stmt::Eval { line, value } | Stmt::Return { line, value } => {
            push_expression(lines, *line, value)
        }
        Stmt::If {
            line,
            test,
            yes,
            no,
        } => {
            push_condition(lines, *line, test)?;
            push_statement(lines, yes)?;
            push_branch(lines, no)
        }
        Stmt::While { line, test, body } => {
            push_condition(lines, *line, test)?;
            push_statement(lines, body)
        }
        Stmt::Do { line, body, test } => {
            push_statement(lines, body)?;
            push_condition(lines, *line, test)
        }
        Stmt::For {
            line,
            first,
            test,
            step,
            body,
        } => {
            push_list(lines, first)?;
            push_condition(lines, *line, test)?;
            push_statement(lines, body)?;
            push_branch(lines, step)
        }
        Stmt::Array { .. } | Stmt::Break { .. } | Stmt::Continue { .. } => Ok(()),
        Stmt::Empty | Stmt::Call { .. } => Ok(()),
    }
}

/// Appends the lines of the nodes of a statement that may be left out.
#[cycle(push_statement)]
#[tactic(auto, using(crate::proofs::Forms::statements))]
fn push_branch(lines: &mut LineList, statement: &Option<Box<Stmt>>) -> Result<(), AllocError>
    ensures { OnOk result (lines.new ≡ lines.old ++ branch_lines (optional_of statement.now)) }
{
    match statement {
        None => Ok(()),
        Some(statement) => push_statement(lines, statement),
    }
}

/// Appends the lines of the nodes of statements in order.
#[cycle(push_statement)]
#[tactic(auto, using(crate::proofs::Forms::statements))]
pub(crate) fn push_list(lines: &mut LineList, items: &StmtList) -> Result<(), AllocError>
    ensures { OnOk result (lines.new ≡ lines.old ++ list_lines (list_of items.now)) }
{
    for item in items.as_slice() {
        push_statement(lines, item)?;
    }
    Ok(())
}
