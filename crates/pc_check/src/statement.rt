ghost use Rattle.std.specs.Prelude.{◌≡◌, Bool, true, [], ◌++◌, OnOk, IfOk, IfErr, option_map};
ghost use Rattle.pc_syntax.specs.Source.{Scope, ScalarDeclaration, ArrayDeclaration, Assignment, WhileLoop, DoLoop, ForLoop};
ghost use Rattle.pc_syntax.specs.Erasure.{expression_of, statement_of, optional_of, list_of};
ghost use Rattle.pc_check.specs.Names.{Names};
ghost use Rattle.pc_check.specs.Faults.{depth_faults, jump_faults, measured_faults, assignment_faults, statement_faults, branch_faults, list_faults};
ghost use Rattle.pc_check.specs.Resolution.{slot_number, resolved_expression, resolved_optional};
ghost use Rattle.pc_check.specs.models.Resolves.{IsFirst, MeasuredResolves, StatementResolves, BranchResolves, ListResolves};
ghost use Rattle.pc_check.specs.models.Parts.{is_for, is_written, is_plain};
ghost use Rattle.pc_check.specs.models.View.{names_of};

use crate::error::CheckError;
use crate::expression::{array_slot, resolve_expression, resolve_optional, scalar_slot};
use crate::measure::{assignment_need, need, optional_need};
use crate::scopes::Scopes;
use pc_syntax::{BinaryOp, ConstList, Expr, Stmt, StmtList};
use pc_word::{MOST_TEMPORARIES, Seq};
use std::alloc::Global;

/// Refuses a statement whose expressions need too many temporaries.
fn check_depth(needed: u32, line: u32) -> Result<(), CheckError>
    ensures shallow { OnOk result (depth_faults needed line ≡ []) }
    ensures refused { IfErr result (λ e. IsFirst e (depth_faults needed line)) }
{
    if needed > MOST_TEMPORARIES {
        return Err(CheckError::TooDeep { line });
    }
    Ok(())
}

/// Refuses a `break` or `continue` outside every loop.
fn check_jump(in_loop: bool, line: u32) -> Result<(), CheckError>
    ensures inside { OnOk result (jump_faults in_loop line ≡ []) }
    ensures refused { IfErr result (λ e. IsFirst e (jump_faults in_loop line)) }
{
    if in_loop {
        Ok(())
    } else {
        Err(CheckError::OutsideLoop { line })
    }
}

/// The expression of a statement or of a condition, measured and resolved.
#[tactic(auto, using(crate::proofs::Rules::statements), unfolding(crate::specs::Faults::statement_faults, crate::specs::Faults::names_behind, crate::specs::Resolution::resolved_statement))]
fn resolve_measured(
    alloc: Global,
    scopes: &Scopes,
    line: u32,
    from: &Expr,
) -> Result<Expr, CheckError>
    ensures resolved { IfOk result (λ to. MeasuredResolves (names_of scopes.now) line (expression_of from.now)
        (expression_of to)) }
    ensures refused { IfErr result (λ e. IsFirst e
        (measured_faults (names_of scopes.now) line (expression_of from.now))) }
{
    check_depth(need(from), line)?;
    resolve_expression(alloc, scopes, from)
}

/// The declaration of a scalar, whose initialiser sees its name.
#[tactic(auto, using(crate::proofs::Rules::statements), unfolding(crate::specs::Faults::statement_faults, crate::specs::Faults::names_behind, crate::specs::Resolution::resolved_statement))]
fn check_scalar(
    alloc: Global,
    scopes: &mut Scopes,
    symbol: u32,
    line: u32,
    initial: &Option<Expr>,
) -> Result<Stmt, CheckError>
    ensures resolved { (in_loop : Bool) → IfOk result
        (λ to. StatementResolves in_loop
        (ScalarDeclaration symbol line (option_map expression_of initial.now))
        (names_of scopes.old) (names_of scopes.new) (statement_of to)) }
    ensures refused { (in_loop : Bool) → IfErr result
        (λ e. IsFirst e (statement_faults in_loop
        (ScalarDeclaration symbol line (option_map expression_of initial.now))
        (names_of scopes.old))) }
{
    let number = scopes.declare_scalar(symbol, line)?;
    check_depth(optional_need(initial), line)?;
    let init = resolve_optional(alloc, scopes, initial)?;
    Ok(Stmt::Scalar {
        symbol: u32::from(number),
        line,
        init,
    })
}

/// The declaration of an array, with the values of its initialiser.
#[tactic(auto, using(crate::proofs::Rules::statements), unfolding(crate::specs::Faults::statement_faults, crate::specs::Faults::names_behind, crate::specs::Resolution::resolved_statement))]
fn check_array(
    alloc: Global,
    scopes: &mut Scopes,
    symbol: u32,
    line: u32,
    at: u32,
    length: u32,
    values: &ConstList,
) -> Result<Stmt, CheckError>
    ensures resolved { (in_loop : Bool) → IfOk result
        (λ to. StatementResolves in_loop (ArrayDeclaration symbol line at length values.now)
        (names_of scopes.old) (names_of scopes.new) (statement_of to)) }
    ensures refused { (in_loop : Bool) → IfErr result
        (λ e. IsFirst e (statement_faults in_loop (ArrayDeclaration symbol line at length values.now)
        (names_of scopes.old))) }
{
    let number = scopes.declare_array(alloc, symbol, line, at, length, values)?;
    let values = Seq::from_slice(alloc, values.as_slice())?;
    Ok(Stmt::Array {
        symbol: u32::from(number),
        line,
        at,
        length,
        values,
    })
}

/// An assignment whose names are slots: the number of its target, its index and its value.
#[derive(Debug, Drop)]
struct Assigned {
    symbol: u32,
    index: Option<Expr>,
    value: Expr,
}

/// The parts of an assignment.
#[tactic(auto, using(crate::proofs::Rules::statements), unfolding(crate::specs::Faults::statement_faults, crate::specs::Faults::names_behind, crate::specs::Resolution::resolved_statement))]
fn check_assignment(
    alloc: Global,
    scopes: &Scopes,
    symbol: u32,
    line: u32,
    index: &Option<Expr>,
    op: &Option<BinaryOp>,
    value: &Expr,
) -> Result<Assigned, CheckError>
    ensures faultless { OnOk result (assignment_faults (names_of scopes.now) symbol line
        (option_map expression_of index.now) op.now (expression_of value.now) ≡ []) }
    ensures target { IfOk result (λ parts. parts.symbol ≡ slot_number (names_of scopes.now) symbol) }
    ensures index { IfOk result (λ parts. option_map expression_of parts.index ≡ resolved_optional
        (names_of scopes.now) (option_map expression_of index.now)) }
    ensures value { IfOk result (λ parts. expression_of parts.value ≡ resolved_expression
        (names_of scopes.now) (expression_of value.now)) }
    ensures refused { IfErr result (λ e. IsFirst e
        (assignment_faults (names_of scopes.now) symbol line
        (option_map expression_of index.now) op.now (expression_of value.now))) }
{
    let symbol = match index {
        None => scalar_slot(scopes, symbol, line)?,
        Some(_) => array_slot(scopes, symbol, line)?,
    };
    check_depth(assignment_need(index, op, value), line)?;
    let index = resolve_optional(alloc, scopes, index)?;
    let value = resolve_expression(alloc, scopes, value)?;
    Ok(Assigned {
        symbol,
        index,
        value,
    })
}

/// An assignment.
#[tactic(auto, using(crate::proofs::Rules::statements), unfolding(crate::specs::Faults::statement_faults, crate::specs::Faults::names_behind, crate::specs::Resolution::resolved_statement))]
fn check_assigned(
    alloc: Global,
    scopes: &Scopes,
    symbol: u32,
    line: u32,
    index: &Option<Expr>,
    bracket: u32,
    op: &Option<BinaryOp>,
    at: u32,
    value: &Expr,
) -> Result<Stmt, CheckError>
    ensures resolved { (in_loop : Bool) → IfOk result (λ to. StatementResolves in_loop
        (Assignment symbol line (option_map expression_of index.now) bracket op.now at (expression_of value.now))
        (names_of scopes.now) (names_of scopes.now) (statement_of to)) }
    ensures refused { (in_loop : Bool) → IfErr result (λ e. IsFirst e (statement_faults in_loop
        (Assignment symbol line (option_map expression_of index.now) bracket op.now at (expression_of value.now))
        (names_of scopes.now))) }
{
    let parts = check_assignment(alloc, scopes, symbol, line, index, op, value)?;
    Ok(Stmt::Assign {
        symbol: parts.symbol,
        line,
        index: parts.index,
        bracket,
        op: *op,
        at,
        value: parts.value,
    })
}

/// A statement with the number of its slot for each name. `in_loop` says whether it stands in a loop's
/// body.
#[cycle(check_statement)]
#[tactic(auto, using(crate::proofs::Rules::statements), unfolding(crate::specs::Faults::statement_faults, crate::specs::Faults::names_behind, crate::specs::Resolution::resolved_statement))]
fn check_statement(
    alloc: Global,
    scopes: &mut Scopes,
    in_loop: bool,
    from: &Stmt,
) -> Result<Stmt, CheckError>
    ensures resolved { IfOk result (λ to. StatementResolves in_loop (statement_of from.now) (names_of scopes.old)
        (names_of scopes.new) (statement_of to)) }
    ensures refused { IfErr result (λ e. IsFirst e
        (statement_faults in_loop (statement_of from.now) (names_of scopes.old))) }
{
    match from {
        Stmt::Block { items } => check_block(alloc, scopes, in_loop, items),
        Stmt::If {
            line,
            test,
            yes,
            no,
        } => {
            let test = resolve_measured(alloc, scopes, *line, test)?;
            let yes = check_boxed(alloc, scopes, in_loop, yes)?;
            let no = check_optional(alloc, scopes, in_loop, no)?;
            Ok(Stmt::If {
                line: *line,
                test,
                yes,
                no,
            })
        }
        Stmt::While { line, test, body } => check_while(alloc, scopes, *line, body, test),
        Stmt::Do { line, body, test } => check_do(alloc, scopes, *line, body, test),
        Stmt::For { .. } => check_for(alloc, scopes, in_loop, from),
        Stmt::Scalar { .. } | Stmt::Array { .. } | Stmt::Assign { .. } => {
            check_written(alloc, scopes, in_loop, from)
        }
        Stmt::Print { .. } | Stmt::Eval { .. } => check_plain(alloc, scopes, in_loop, from),
        Stmt::Return { .. } | Stmt::Break { .. } => check_plain(alloc, scopes, in_loop, from),
        Stmt::Continue { .. } | Stmt::Empty => check_plain(alloc, scopes, in_loop, from),
        Stmt::Call { .. } => check_plain(alloc, scopes, in_loop, from),
    }
}

/// The same of a `for`.
#[cycle(check_statement)]
#[tactic(auto, using(crate::proofs::Rules::statements), unfolding(crate::specs::Faults::statement_faults, crate::specs::Faults::names_behind, crate::specs::Resolution::resolved_statement))]
fn check_for(
    alloc: Global,
    scopes: &mut Scopes,
    in_loop: bool,
    from: &Stmt,
) -> Result<Stmt, CheckError>
    requires { is_for (statement_of from.now) ≡ true }
    ensures resolved { IfOk result (λ to. StatementResolves in_loop (statement_of from.now) (names_of scopes.old)
        (names_of scopes.new) (statement_of to)) }
    ensures refused { IfErr result (λ e. IsFirst e
        (statement_faults in_loop (statement_of from.now) (names_of scopes.old))) }
{
    match from {
        Stmt::For {
            line,
            first,
            test,
            step,
            body,
        } => {
            scopes.enter(alloc)?;
            let first = check_list(alloc, scopes, in_loop, first)?;
            let test = resolve_measured(alloc, scopes, *line, test)?;
            let step = check_optional(alloc, scopes, in_loop, step)?;
            let body = check_boxed(alloc, scopes, true, body)?;
            scopes.leave();
            Ok(Stmt::For {
                line: *line,
                first,
                test,
                step,
                body,
            })
        }
        Stmt::Block { .. } | Stmt::If { .. } | Stmt::While { .. } | Stmt::Do { .. } =>
            unreachable!(),
        Stmt::Scalar { .. } | Stmt::Array { .. } | Stmt::Assign { .. } => unreachable!(),
        Stmt::Print { .. } | Stmt::Eval { .. } | Stmt::Return { .. } => unreachable!(),
        Stmt::Break { .. } | Stmt::Continue { .. } | Stmt::Empty => unreachable!(),
        Stmt::Call { .. } => unreachable!(),
    }
}

/// The same of a declaration or an assignment.
#[tactic(auto, using(crate::proofs::Rules::statements), unfolding(crate::specs::Faults::statement_faults, crate::specs::Faults::names_behind, crate::specs::Resolution::resolved_statement))]
fn check_written(
    alloc: Global,
    scopes: &mut Scopes,
    in_loop: bool,
    from: &Stmt,
) -> Result<Stmt, CheckError>
    requires { is_written (statement_of from.now) ≡ true }
    ensures resolved { IfOk result (λ to. StatementResolves in_loop (statement_of from.now) (names_of scopes.old)
        (names_of scopes.new) (statement_of to)) }
    ensures refused { IfErr result (λ e. IsFirst e
        (statement_faults in_loop (statement_of from.now) (names_of scopes.old))) }
{
    match from {
        Stmt::Scalar { symbol, line, init } => check_scalar(alloc, scopes, *symbol, *line, init),
        Stmt::Array {
            symbol,
            line,
            at,
            length,
            values,
        } => check_array(alloc, scopes, *symbol, *line, *at, *length, values),
        Stmt::Assign {
            symbol,
            line,
            index,
            bracket,
            op,
            at,
            value,
        } => check_assigned(
            alloc, scopes, *symbol, *line, index, *bracket, op, *at, value,
        ),
        Stmt::Block { .. } | Stmt::If { .. } | Stmt::While { .. } => unreachable!(),
        Stmt::Do { .. } | Stmt::For { .. } | Stmt::Print { .. } => unreachable!(),
        Stmt::Eval { .. } | Stmt::Break { .. } | Stmt::Continue { .. } => unreachable!(),
        Stmt::Return { .. } | Stmt::Empty | Stmt::Call { .. } => unreachable!(),
    }
}

/// The same of a statement that neither declares or assigns a name nor holds others.
#[tactic(auto, using(crate::proofs::Rules::statements), unfolding(crate::specs::Faults::statement_faults, crate::specs::Faults::names_behind, crate::specs::Resolution::resolved_statement))]
fn check_plain(
    alloc: Global,
    scopes: &mut Scopes,
    in_loop: bool,
    from: &Stmt,
) -> Result<Stmt, CheckError>
    requires { is_plain (statement_of from.now) ≡ true }
    ensures resolved { IfOk result (λ to. StatementResolves in_loop (statement_of from.now) (names_of scopes.old)
        (names_of scopes.new) (statement_of to)) }
    ensures refused { IfErr result (λ e. IsFirst e
        (statement_faults in_loop (statement_of from.now) (names_of scopes.old))) }
{
    match from {
        Stmt::Print { line, value } => {
            let value = resolve_measured(alloc, scopes, *line, value)?;
            Ok(Stmt::Print { line: *line, value })
        }
        Stmt::Eval { line, value } => {
            let value = resolve_measured(alloc, scopes, *line, value)?;
            Ok(Stmt::Eval { line: *line, value })
        }
        Stmt::Break { line } => {
            check_jump(in_loop, *line)?;
            Ok(Stmt::Break { line: *line })
        }
        Stmt::Continue { line } => {
            check_jump(in_loop, *line)?;
            Ok(Stmt::Continue { line: *line })
        }
        Stmt::Return { line, value } => {
            let value = resolve_measured(alloc, scopes, *line, value)?;
            Ok(Stmt::Return { line: *line, value })
        }
        Stmt::Empty | Stmt::Call { .. } => Ok(Stmt::Empty),
        Stmt::Block { .. } | Stmt::If { .. } | Stmt::While { .. } => unreachable!(),
        Stmt::Do { .. } | Stmt::For { .. } | Stmt::Scalar { .. } => unreachable!(),
        Stmt::Array { .. } | Stmt::Assign { .. } => unreachable!(),
    }
}

/// A block, which is a scope of its own.
#[cycle(check_statement)]
#[tactic(auto, using(crate::proofs::Rules::statements), unfolding(crate::specs::Faults::statement_faults, crate::specs::Faults::names_behind, crate::specs::Resolution::resolved_statement))]
fn check_block(
    alloc: Global,
    scopes: &mut Scopes,
    in_loop: bool,
    items: &StmtList,
) -> Result<Stmt, CheckError>
    ensures resolved { IfOk result (λ to. StatementResolves in_loop (Scope (list_of items.now))
        (names_of scopes.old) (names_of scopes.new) (statement_of to)) }
    ensures refused { IfErr result (λ e. IsFirst e
        (statement_faults in_loop (Scope (list_of items.now)) (names_of scopes.old))) }
{
    scopes.enter(alloc)?;
    let items = check_list(alloc, scopes, in_loop, items)?;
    scopes.leave();
    Ok(Stmt::Block { items })
}

/// A `while`.
#[cycle(check_statement)]
#[tactic(auto, using(crate::proofs::Rules::statements), unfolding(crate::specs::Faults::statement_faults, crate::specs::Faults::names_behind, crate::specs::Resolution::resolved_statement))]
fn check_while(
    alloc: Global,
    scopes: &mut Scopes,
    line: u32,
    body: &Stmt,
    test: &Expr,
) -> Result<Stmt, CheckError>
    ensures resolved { (in_loop : Bool) → IfOk result
        (λ to. StatementResolves in_loop
        (WhileLoop line (expression_of test.now) (statement_of body.now))
        (names_of scopes.old) (names_of scopes.new) (statement_of to)) }
    ensures refused { (in_loop : Bool) → IfErr result
        (λ e. IsFirst e (statement_faults in_loop
        (WhileLoop line (expression_of test.now) (statement_of body.now))
        (names_of scopes.old))) }
{
    let test = resolve_measured(alloc, scopes, line, test)?;
    let body = check_boxed(alloc, scopes, true, body)?;
    Ok(Stmt::While { line, test, body })
}

/// A `do`, whose condition comes after its body.
#[cycle(check_statement)]
#[tactic(auto, using(crate::proofs::Rules::statements), unfolding(crate::specs::Faults::statement_faults, crate::specs::Faults::names_behind, crate::specs::Resolution::resolved_statement))]
fn check_do(
    alloc: Global,
    scopes: &mut Scopes,
    line: u32,
    body: &Stmt,
    test: &Expr,
) -> Result<Stmt, CheckError>
    ensures resolved { (in_loop : Bool) → IfOk result
        (λ to. StatementResolves in_loop
        (DoLoop line (statement_of body.now) (expression_of test.now)) (names_of scopes.old)
        (names_of scopes.new) (statement_of to)) }
    ensures refused { (in_loop : Bool) → IfErr result
        (λ e. IsFirst e (statement_faults in_loop
        (DoLoop line (statement_of body.now) (expression_of test.now)) (names_of scopes.old))) }
{
    let body = check_boxed(alloc, scopes, true, body)?;
    let test = resolve_measured(alloc, scopes, line, test)?;
    Ok(Stmt::Do { line, body, test })
}

/// A statement in a box of its own.
#[cycle(check_statement)]
#[tactic(auto, using(crate::proofs::Rules::statements), unfolding(crate::specs::Faults::statement_faults, crate::specs::Faults::names_behind, crate::specs::Resolution::resolved_statement))]
fn check_boxed(
    alloc: Global,
    scopes: &mut Scopes,
    in_loop: bool,
    from: &Stmt,
) -> Result<Box<Stmt>, CheckError>
    ensures resolved { IfOk result (λ to. StatementResolves in_loop (statement_of from.now) (names_of scopes.old)
        (names_of scopes.new) (statement_of to.value)) }
    ensures refused { IfErr result (λ e. IsFirst e
        (statement_faults in_loop (statement_of from.now) (names_of scopes.old))) }
{
    let to = check_statement(alloc, scopes, in_loop, from)?;
    Ok(Box::new(alloc, to)?)
}

/// The same of a statement that may be left out.
#[cycle(check_statement)]
#[tactic(auto, using(crate::proofs::Rules::statements), unfolding(crate::specs::Faults::statement_faults, crate::specs::Faults::names_behind, crate::specs::Resolution::resolved_statement))]
fn check_optional(
    alloc: Global,
    scopes: &mut Scopes,
    in_loop: bool,
    from: &Option<Box<Stmt>>,
) -> Result<Option<Box<Stmt>>, CheckError>
    ensures resolved { IfOk result (λ to. BranchResolves in_loop (optional_of from.now) (names_of scopes.old)
        (names_of scopes.new) (optional_of to)) }
    ensures refused { IfErr result (λ e. IsFirst e
        (branch_faults in_loop (optional_of from.now) (names_of scopes.old))) }
{
    match from {
        None => Ok(None),
        Some(from) => {
            let to = check_boxed(alloc, scopes, in_loop, from)?;
            Ok(Some(to))
        }
    }
}

/// Statements in order.
#[cycle(check_statement)]
#[tactic(auto, using(crate::proofs::Rules::statements), unfolding(crate::specs::Faults::statement_faults, crate::specs::Faults::names_behind, crate::specs::Resolution::resolved_statement))]
pub(crate) fn check_list(
    alloc: Global,
    scopes: &mut Scopes,
    in_loop: bool,
    from: &StmtList,
) -> Result<StmtList, CheckError>
    ensures resolved { IfOk result (λ to. ListResolves in_loop (list_of from.now) (names_of scopes.old)
        (names_of scopes.new) (list_of to)) }
    ensures refused { IfErr result (λ e. IsFirst e
        (list_faults in_loop (list_of from.now) (names_of scopes.old))) }
{
    let mut items = Seq::new(alloc);
    for item in from.as_slice() {
        let item = check_statement(alloc, scopes, in_loop, item)?;
        items.push(item)?;
    }
    Ok(items)
}
