//! The marks of a program's loops, in the order of their keywords. Their headers are put in as the
//! loops are lowered.
ghost use Rattle.std.specs.Prelude.{◌≡◌, ◌+◌, ◌≤◌, IfOk, OnOk, length};
ghost use Rattle.pc_syntax.specs.Erasure.{statement_of, optional_of, list_of};
ghost use Rattle.pc_lower.specs.SourceLoops.{source_loops, with_loop, with_loops, with_branch_loops, with_list_loops, loop_count, branch_loops, list_loops};

use pc_syntax::{Stmt, StmtList};
use pc_word::{LoopList, LoopMark};
use std::alloc::AllocError;

/// Appends the mark of a loop to those that there are, and gives its number.
#[tactic(auto, using(crate::proofs::LoopMarks::marks))]
fn mark_loop(marks: &mut LoopList, line: u32, outer: Option<u16>) -> Result<u16, AllocError>
    requires room { length marks.old ≤ 65535 }
    ensures number { IfOk result (λ own. own ≡ length (source_loops marks.old)) }
    ensures marked { OnOk result (source_loops marks.new ≡ with_loop line outer (source_loops marks.old)) }
    ensures counted { OnOk result (length marks.new ≡ length marks.old + 1) }
{
    let own = marks.len() as u16;
    marks.push(LoopMark {
        line,
        header: 0,
        outer,
    })?;
    Ok(own)
}

/// Appends the marks of a statement's loops to those that there are. It stands in the text of a loop
/// or of none.
#[cycle(mark_statement)]
#[tactic(auto, using(crate::proofs::LoopMarks::statements), unfolding(crate::specs::SourceLoops::with_loops, crate::specs::SourceLoops::loop_count))]
pub(crate) fn mark_statement(
    marks: &mut LoopList,
    statement: &Stmt,
    outer: Option<u16>,
) -> Result<(), AllocError>
    requires room { length marks.old + loop_count (statement_of statement.now) ≤ 65535 }
    ensures marked { OnOk result (source_loops marks.new ≡ with_loops (statement_of statement.now) outer (source_loops marks.old)) }
    ensures counted { OnOk result (length marks.new ≡ length marks.old + loop_count (statement_of statement.now)) }
{
    match statement {
        Stmt::Block { items } => mark_list(marks, items, outer),
        Stmt::If { yes, no, .. } => {
            mark_statement(marks, yes, outer)?;
            mark_optional(marks, no, outer)
        }
        Stmt::While { line, body, .. } | Stmt::Do { line, body, .. } => {
            let own = mark_loop(marks, *line, outer)?;
            mark_statement(marks, body, Some(own))
        }
        Stmt::For {
            line,
            first,
            step,
            body,
            ..
        } => {
            let own = mark_loop(marks, *line, outer)?;
            mark_list(marks, first, outer)?;
            mark_optional(marks, step, Some(own))?;
            mark_statement(marks, body, Some(own))
        }
        Stmt::Scalar { .. } | Stmt::Array { .. } | Stmt::Assign { .. } => Ok(()),
        Stmt::Print { .. } | Stmt::Eval { .. } | Stmt::Return { .. } => Ok(()),
        Stmt::Break { .. } | Stmt::Continue { .. } | Stmt::Empty => Ok(()),
        Stmt::Call { .. } => Ok(()),
    }
}

/// The same of a statement that may be left out.
#[cycle(mark_statement)]
#[tactic(auto, using(crate::proofs::LoopMarks::statements), unfolding(crate::specs::SourceLoops::with_loops, crate::specs::SourceLoops::loop_count))]
fn mark_optional(
    marks: &mut LoopList,
    statement: &Option<Box<Stmt>>,
    outer: Option<u16>,
) -> Result<(), AllocError>
    requires room { length marks.old + branch_loops (optional_of statement.now) ≤ 65535 }
    ensures marked { OnOk result (source_loops marks.new ≡ with_branch_loops (optional_of statement.now) outer (source_loops marks.old)) }
    ensures counted { OnOk result (length marks.new ≡ length marks.old + branch_loops (optional_of statement.now)) }
{
    match statement {
        None => Ok(()),
        Some(statement) => mark_statement(marks, statement, outer),
    }
}

/// The same of statements in order.
#[cycle(mark_statement)]
#[tactic(auto, using(crate::proofs::LoopMarks::statements), unfolding(crate::specs::SourceLoops::with_loops, crate::specs::SourceLoops::loop_count))]
pub(crate) fn mark_list(
    marks: &mut LoopList,
    items: &StmtList,
    outer: Option<u16>,
) -> Result<(), AllocError>
    requires room { length marks.old + list_loops (list_of items.now) ≤ 65535 }
    ensures marked { OnOk result (source_loops marks.new ≡ with_list_loops (list_of items.now) outer (source_loops marks.old)) }
    ensures counted { OnOk result (length marks.new ≡ length marks.old + list_loops (list_of items.now)) }
{
    for item in items.as_slice() {
        mark_statement(marks, item, outer)?;
    }
    Ok(())
}
