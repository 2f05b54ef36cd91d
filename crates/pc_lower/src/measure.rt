//! How many loops a statement has.
ghost use Rattle.std.specs.Prelude.{◌≡◌, min};
ghost use Rattle.pc_syntax.specs.Erasure.{statement_of, optional_of, list_of};
ghost use Rattle.pc_lower.specs.SourceLoops.{loop_count, branch_loops, list_loops};

use pc_syntax::{Stmt, StmtList};

/// The loops of a statement, or 65535 where there are more.
#[cycle(loop_count)]
#[tactic(auto, using(pc_syntax::proofs::ErasureLaws::statement_forms), unfolding(crate::specs::SourceLoops::loop_count))]
pub(crate) fn loop_count(statement: &Stmt) -> u16
    ensures { result ≡ min (loop_count (statement_of statement.now)) 65535 }
{
    match statement {
        Stmt::Block { items } => list_loops(items),
        Stmt::If { yes, no, .. } => loop_count(yes).saturating_add(branch_loops(no)),
        Stmt::While { body, .. } | Stmt::Do { body, .. } => loop_count(body).saturating_add(1),
        Stmt::For {
            first,
            step,
            body,
            ..
        } => {
            let turn = branch_loops(step).saturating_add(loop_count(body));
            list_loops(first).saturating_add(turn).saturating_add(1)
        }
        Stmt::Scalar { .. } | Stmt::Array { .. } | Stmt::Assign { .. } => 0,
        Stmt::Print { .. } | Stmt::Eval { .. } | Stmt::Return { .. } => 0,
        Stmt::Break { .. } | Stmt::Continue { .. } | Stmt::Empty => 0,
        Stmt::Call { .. } => 0,
    }
}

/// The same of a statement that may be left out.
#[cycle(loop_count)]
#[tactic(auto, using(pc_syntax::proofs::ErasureLaws::statement_forms), unfolding(crate::specs::SourceLoops::loop_count))]
pub(crate) fn branch_loops(statement: &Option<Box<Stmt>>) -> u16
    ensures { result ≡ min (branch_loops (optional_of statement.now)) 65535 }
{
    match statement {
        None => 0,
        Some(statement) => loop_count(statement),
    }
}

/// The same of statements in order.
#[cycle(loop_count)]
#[tactic(auto, using(pc_syntax::proofs::ErasureLaws::statement_forms), unfolding(crate::specs::SourceLoops::loop_count))]
pub(crate) fn list_loops(items: &StmtList) -> u16
    ensures { result ≡ min (list_loops (list_of items.now)) 65535 }
{
    let mut total: u16 = 0;
    for item in items.as_slice() {
        total = total.saturating_add(loop_count(item));
    }
    total
}
