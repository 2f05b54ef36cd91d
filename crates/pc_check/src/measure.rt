ghost use Rattle.std.specs.Prelude.{◌≡◌, ◌+◌, min, max, Option, option_map};
ghost use Rattle.pc_syntax.specs.Erasure.{expression_of, statement_of, optional_of, list_of, program_of};
ghost use Rattle.pc_check.specs.Needs.{hold, need, optional_need, assignment_need};
ghost use Rattle.pc_check.specs.Sizes.{operator_size, expression_size, optional_size, target_size, statement_size, branch_size, list_size, size};

use pc_syntax::{BinaryOp, Expr, Program, Stmt, StmtList};

/// How many temporaries hold a value while others are computed: none for a number or a scalar.
#[tactic(auto, using(pc_syntax::proofs::ErasureLaws::expression_forms))]
pub fn hold(expression: &Expr) -> u32
    ensures { result ≡ hold (expression_of expression.now) }
{
    match expression {
        Expr::Lit { .. } | Expr::Name { .. } => 0,
        Expr::Read { .. } | Expr::Element { .. } | Expr::Unary { .. } | Expr::Binary { .. } => 1,
        Expr::Both { .. } | Expr::Either { .. } | Expr::Choose { .. } => 1,
    }
}

/// How many temporaries the evaluation of an expression needs at once, or 4294967295 where it needs more.
#[tactic(auto, using(pc_syntax::proofs::ErasureLaws::expression_forms), unfolding(crate::specs::Needs::need))]
pub fn need(expression: &Expr) -> u32
    ensures { result ≡ min (need (expression_of expression.now)) 4294967295 }
{
    match expression {
        Expr::Lit { .. } | Expr::Name { .. } => 0,
        Expr::Read { .. } => 1,
        Expr::Element { index, .. } => need(index).max(hold(index) + 1),
        Expr::Unary { of, .. } => need(of).max(1),
        Expr::Binary { left, right, .. } => {
            let later = hold(left).saturating_add(need(right));
            need(left).max(later).max(1)
        }
        Expr::Both { left, right } | Expr::Either { left, right } => {
            need(left).max(need(right)).max(1)
        }
        Expr::Choose { test, yes, no } => need(test).max(need(yes)).max(need(no)).max(1),
    }
}

/// The same of an initialiser, where there is one.
pub(crate) fn optional_need(initial: &Option<Expr>) -> u32
    ensures { result ≡ min (optional_need (option_map expression_of initial.now)) 4294967295 }
{
    match initial {
        None => 0,
        Some(initial) => need(initial),
    }
}

/// The same of an assignment, with its index, its operator and its value.
pub(crate) fn assignment_need(index: &Option<Expr>, op: &Option<BinaryOp>, value: &Expr) -> u32
    ensures { result ≡ min (assignment_need (option_map expression_of index.now) op.now
        (expression_of value.now)) 4294967295 }
{
    match (index, op) {
        (None, None) => need(value),
        (None, Some(_)) => need(value).max(1),
        (Some(index), None) => {
            let later = hold(index).saturating_add(need(value));
            need(index).max(later).max(hold(index) + hold(value) + 1)
        }
        (Some(index), Some(_)) => need(index).max((hold(index) + 1).saturating_add(need(value))),
    }
}

/// The nodes of an operator: a division is tested first, and may lead to a trap.
fn operator_size(op: BinaryOp) -> u32
    ensures { result ≡ operator_size op }
{
    match op {
        BinaryOp::Div | BinaryOp::Rem => 3,
        _ => 1,
    }
}

/// The nodes of an expression, or 4294967295 where there are more.
#[tactic(auto, using(pc_syntax::proofs::ErasureLaws::expression_forms), unfolding(crate::specs::Sizes::expression_size))]
fn expression_size(expression: &Expr) -> u32
    ensures { result ≡ min (expression_size (expression_of expression.now)) 4294967295 }
{
    match expression {
        Expr::Lit { .. } | Expr::Name { .. } => 0,
        Expr::Read { .. } => 4,
        Expr::Element { index, .. } => expression_size(index).saturating_add(4),
        Expr::Unary { of, .. } => expression_size(of).saturating_add(1),
        Expr::Binary {
            op,
            left,
            right,
            ..
        } => {
            let operands = expression_size(left).saturating_add(expression_size(right));
            operands.saturating_add(operator_size(*op))
        }
        Expr::Both { left, right } | Expr::Either { left, right } => {
            let operands = expression_size(left).saturating_add(expression_size(right));
            operands.saturating_add(3)
        }
        Expr::Choose { test, yes, no } => {
            let first = expression_size(test).saturating_add(expression_size(yes));
            first.saturating_add(expression_size(no)).saturating_add(3)
        }
    }
}

/// The same of an expression that may be left out.
fn optional_size(expression: &Option<Expr>) -> u32
    ensures { result ≡ min (optional_size (option_map expression_of expression.now)) 4294967295 }
{
    match expression {
        None => 0,
        Some(expression) => expression_size(expression),
    }
}

/// The nodes that an assignment has beyond those of its index and its value.
fn target_size(index: &Option<Expr>, op: &Option<BinaryOp>) -> u32
    ensures { result ≡ target_size (option_map expression_of index.now) op.now }
{
    match (index, op) {
        (None, None) => 1,
        (None, Some(op)) => operator_size(*op) + 1,
        (Some(_), None) => 4,
        (Some(_), Some(op)) => operator_size(*op) + 5,
    }
}

/// How many nodes of a flow graph a statement has, or 4294967295 where it has more.
#[cycle(statement_size)]
#[tactic(auto, using(pc_syntax::proofs::ErasureLaws::statement_forms), unfolding(crate::specs::Sizes::statement_size))]
pub fn statement_size(statement: &Stmt) -> u32
    ensures { result ≡ min (statement_size (statement_of statement.now)) 4294967295 }
{
    match statement {
        Stmt::Block { items } => list_size(items),
        Stmt::Scalar { init, .. } => optional_size(init).saturating_add(1),
        Stmt::Assign {
            index,
            op,
            value,
            ..
        } => {
            let parts = optional_size(index).saturating_add(expression_size(value));
            parts.saturating_add(target_size(index, op))
        }
        Stmt::Print { value, .. } => expression_size(value).saturating_add(1),
        Stmt::Eval { value, .. } | Stmt::Return { value, .. } => expression_size(value),
        Stmt::If { test, yes, no, .. } => {
            let chosen = expression_size(test).saturating_add(statement_size(yes));
            chosen.saturating_add(branch_size(no)).saturating_add(1)
        }
        Stmt::While { test, body, .. } | Stmt::Do { test, body, .. } => {
            let parts = expression_size(test).saturating_add(statement_size(body));
            parts.saturating_add(1)
        }
        Stmt::For {
            first,
            test,
            step,
            body,
            ..
        } => {
            let start = list_size(first).saturating_add(expression_size(test));
            let turn = branch_size(step).saturating_add(statement_size(body));
            start.saturating_add(turn).saturating_add(1)
        }
        Stmt::Array { .. } | Stmt::Break { .. } | Stmt::Continue { .. } => 0,
        Stmt::Empty | Stmt::Call { .. } => 0,
    }
}

/// The same of a statement that may be left out.
#[cycle(statement_size)]
#[tactic(auto, using(pc_syntax::proofs::ErasureLaws::statement_forms), unfolding(crate::specs::Sizes::statement_size))]
pub fn branch_size(statement: &Option<Box<Stmt>>) -> u32
    ensures { result ≡ min (branch_size (optional_of statement.now)) 4294967295 }
{
    match statement {
        None => 0,
        Some(statement) => statement_size(statement),
    }
}

/// The same of statements in order.
#[cycle(statement_size)]
#[tactic(auto, using(pc_syntax::proofs::ErasureLaws::statement_forms), unfolding(crate::specs::Sizes::statement_size))]
fn list_size(items: &StmtList) -> u32
    ensures { result ≡ min (list_size (list_of items.now)) 4294967295 }
{
    let mut total: u32 = 0;
    for item in items.as_slice() {
        total = total.saturating_add(statement_size(item));
    }
    total
}

/// How many nodes the flow graph of a program has, or 4294967295 where it has more.
pub fn size(program: &Program) -> u32
    ensures { result ≡ min (size (program_of program.now)) 4294967295 }
{
    list_size(&program.items).saturating_add(1)
}
