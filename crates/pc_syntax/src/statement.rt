ghost use Rattle.std.specs.Prelude.{◌≡◌, true, IfOk, option_map, map};
ghost use Rattle.pc_syntax.specs.Unit.{Scalar, Array, Assign, If, While, Do, For, Call};
ghost use Rattle.pc_syntax.specs.Erasure.{expression_of};
ghost use Rattle.pc_syntax.specs.UnitErasure.{unit_statement_of, unit_list_of, unit_optional_of};
ghost use Rattle.pc_syntax.specs.models.Parts.{is_simple};

use crate::constant::ConstList;
use crate::expression::{Expr, ExprList, copy_expression, copy_expressions, copy_optional};
use crate::operator::BinaryOp;
use crate::program::SyntaxError;
use crate::unit::Target;
use pc_word::Seq;
use std::alloc::Global;

/// Statements in order.
pub type StmtList = Seq<Stmt>;

/// A statement, or one declarator of a declaration.
///
/// Each `line` is the line of the statement's first token, of a declarator's name, or of the name that
/// is assigned, also after `++` or `--`. Each `at` is the line of the operator of an assignment or of
/// an array's length.
#[derive(Debug, Drop)]
pub enum Stmt {
    /// A block, which is a scope of its own.
    Block {
        items: StmtList,
    },
    /// The declarator of a scalar.
    Scalar {
        symbol: u32,
        line: u32,
        init: Option<Expr>,
    },
    /// The declarator of an array. `values` are those of its initialiser, which a static array may have
    /// (C17 6.7.9), and empty where there is none.
    Array {
        symbol: u32,
        line: u32,
        at: u32,
        length: u32,
        values: ConstList,
    },
    /// An assignment. `op` is the operator of a compound one, and `++` and `--` are `+= 1` and `-= 1`.
    /// `bracket` is the line of `[`, and equals `line` where there is no index.
    Assign {
        symbol: u32,
        line: u32,
        index: Option<Expr>,
        bracket: u32,
        op: Option<BinaryOp>,
        at: u32,
        value: Expr,
    },
    /// `print(value);`
    Print {
        line: u32,
        value: Expr,
    },
    /// An expression statement.
    Eval {
        line: u32,
        value: Expr,
    },
    If {
        line: u32,
        test: Expr,
        yes: Box<Stmt>,
        no: Option<Box<Stmt>>,
    },
    While {
        line: u32,
        test: Expr,
        body: Box<Stmt>,
    },
    Do {
        line: u32,
        body: Box<Stmt>,
        test: Expr,
    },
    /// A `for`, which is a scope of its own with its first part. `first` is empty where it is left out,
    /// and `test` is 1 where the condition is.
    For {
        line: u32,
        first: StmtList,
        test: Expr,
        step: Option<Box<Stmt>>,
        body: Box<Stmt>,
    },
    Break {
        line: u32,
    },
    Continue {
        line: u32,
    },
    Return {
        line: u32,
        value: Expr,
    },
    /// A lone `;`.
    Empty,
    /// A call of a function, as a statement of its own, as the right side of an assignment to a scalar, or
    /// as the initialiser of a scalar. `function` is the symbol of the called name, and `at` its line.
    Call {
        line: u32,
        target: Option<Target>,
        function: u32,
        at: u32,
        args: ExprList,
    },
}

/// An equal statement, in memory of its own.
#[cycle(copy_statement)]
#[tactic(auto, using(crate::proofs::UnitLaws::unit_forms))]
fn copy_statement(alloc: Global, from: &Stmt) -> Result<Stmt, SyntaxError>
    ensures { IfOk result (λ copy. unit_statement_of copy ≡ unit_statement_of from.now) }
{
    match from {
        Stmt::Block { items } => {
            let items = copy_list(alloc, items)?;
            Ok(Stmt::Block { items })
        }
        Stmt::If {
            line,
            test,
            yes,
            no,
        } => {
            let no = copy_held(alloc, no)?;
            copy_if(alloc, yes, *line, test, no)
        }
        Stmt::While { line, test, body } => copy_while(alloc, body, *line, test),
        Stmt::Do { line, body, test } => copy_do(alloc, body, *line, test),
        Stmt::For {
            line,
            first,
            test,
            step,
            body,
        } => {
            let first = copy_list(alloc, first)?;
            let step = copy_held(alloc, step)?;
            copy_for(alloc, body, *line, first, test, step)
        }
        Stmt::Scalar { .. } | Stmt::Array { .. } | Stmt::Assign { .. } => copy_simple(alloc, from),
        Stmt::Print { .. } | Stmt::Eval { .. } | Stmt::Return { .. } => copy_simple(alloc, from),
        Stmt::Break { .. } | Stmt::Continue { .. } | Stmt::Empty => copy_simple(alloc, from),
        Stmt::Call { .. } => copy_simple(alloc, from),
    }
}

/// An equal statement, of one that holds no others.
#[tactic(auto, using(crate::proofs::UnitLaws::unit_forms))]
fn copy_simple(alloc: Global, from: &Stmt) -> Result<Stmt, SyntaxError>
    requires { is_simple (unit_statement_of from.now) ≡ true }
    ensures { IfOk result (λ copy. unit_statement_of copy ≡ unit_statement_of from.now) }
{
    match from {
        Stmt::Scalar { symbol, line, init } => copy_scalar(alloc, *symbol, *line, init),
        Stmt::Array {
            symbol,
            line,
            at,
            length,
            values,
        } => copy_array(alloc, *symbol, *line, *at, *length, values),
        Stmt::Assign {
            symbol,
            line,
            index,
            bracket,
            op,
            at,
            value,
        } => copy_assignment(alloc, *symbol, *line, index, *bracket, *op, *at, value),
        Stmt::Print { line, value } => {
            let value = copy_expression(alloc, value)?;
            Ok(Stmt::Print { line: *line, value })
        }
        Stmt::Eval { line, value } => {
            let value = copy_expression(alloc, value)?;
            Ok(Stmt::Eval { line: *line, value })
        }
        Stmt::Break { line } => Ok(Stmt::Break { line: *line }),
        Stmt::Continue { line } => Ok(Stmt::Continue { line: *line }),
        Stmt::Return { line, value } => {
            let value = copy_expression(alloc, value)?;
            Ok(Stmt::Return { line: *line, value })
        }
        Stmt::Empty => Ok(Stmt::Empty),
        Stmt::Call {
            line,
            target,
            function,
            at,
            args,
        } => copy_call(alloc, *line, *target, *function, *at, args),
        Stmt::Block { .. } | Stmt::If { .. } => unreachable!(),
        Stmt::While { .. } | Stmt::Do { .. } | Stmt::For { .. } => unreachable!(),
    }
}

/// The declarator of a scalar, with a copy of its initialiser.
#[tactic(auto, using(crate::proofs::UnitLaws::unit_forms))]
fn copy_scalar(
    alloc: Global,
    symbol: u32,
    line: u32,
    init: &Option<Expr>,
) -> Result<Stmt, SyntaxError>
    ensures { IfOk result (λ copy. unit_statement_of copy
        ≡ Scalar symbol line (option_map expression_of init.now)) }
{
    let init = copy_optional(alloc, init)?;
    Ok(Stmt::Scalar { symbol, line, init })
}

/// The declarator of an array, with a copy of its values.
#[tactic(auto, using(crate::proofs::UnitLaws::unit_forms))]
fn copy_array(
    alloc: Global,
    symbol: u32,
    line: u32,
    at: u32,
    length: u32,
    values: &ConstList,
) -> Result<Stmt, SyntaxError>
    ensures { IfOk result (λ copy. unit_statement_of copy ≡ Array symbol line at length values.now) }
{
    let values = Seq::from_slice(alloc, values.as_slice())?;
    Ok(Stmt::Array {
        symbol,
        line,
        at,
        length,
        values,
    })
}

/// An assignment, with copies of its index and its value.
#[tactic(auto, using(crate::proofs::UnitLaws::unit_forms))]
fn copy_assignment(
    alloc: Global,
    symbol: u32,
    line: u32,
    index: &Option<Expr>,
    bracket: u32,
    op: Option<BinaryOp>,
    at: u32,
    value: &Expr,
) -> Result<Stmt, SyntaxError>
    ensures { IfOk result (λ copy. unit_statement_of copy
        ≡ Assign symbol line (option_map expression_of index.now) bracket op at
        (expression_of value.now)) }
{
    let index = copy_optional(alloc, index)?;
    let value = copy_expression(alloc, value)?;
    Ok(Stmt::Assign {
        symbol,
        line,
        index,
        bracket,
        op,
        at,
        value,
    })
}

/// A call, with copies of its arguments.
#[tactic(auto, using(crate::proofs::UnitLaws::unit_forms))]
fn copy_call(
    alloc: Global,
    line: u32,
    target: Option<Target>,
    function: u32,
    at: u32,
    args: &ExprList,
) -> Result<Stmt, SyntaxError>
    ensures { IfOk result (λ copy. unit_statement_of copy ≡ Call line target function at (map expression_of args.now)) }
{
    let args = copy_expressions(alloc, args)?;
    Ok(Stmt::Call {
        line,
        target,
        function,
        at,
        args,
    })
}

/// An `if` with this `else`, and copies of its condition and its body.
#[cycle(copy_statement)]
#[tactic(auto, using(crate::proofs::UnitLaws::unit_forms))]
fn copy_if(
    alloc: Global,
    yes: &Stmt,
    line: u32,
    test: &Expr,
    no: Option<Box<Stmt>>,
) -> Result<Stmt, SyntaxError>
    ensures { IfOk result (λ copy. unit_statement_of copy
        ≡ If line (expression_of test.now) (unit_statement_of yes.now) (unit_optional_of no)) }
{
    let test = copy_expression(alloc, test)?;
    let yes = copy_boxed(alloc, yes)?;
    Ok(Stmt::If {
        line,
        test,
        yes,
        no,
    })
}

/// A `while`, with copies of its condition and its body.
#[cycle(copy_statement)]
#[tactic(auto, using(crate::proofs::UnitLaws::unit_forms))]
fn copy_while(alloc: Global, body: &Stmt, line: u32, test: &Expr) -> Result<Stmt, SyntaxError>
    ensures { IfOk result (λ copy. unit_statement_of copy
        ≡ While line (expression_of test.now) (unit_statement_of body.now)) }
{
    let test = copy_expression(alloc, test)?;
    let body = copy_boxed(alloc, body)?;
    Ok(Stmt::While { line, test, body })
}

/// A `do`, with copies of its body and its condition.
#[cycle(copy_statement)]
#[tactic(auto, using(crate::proofs::UnitLaws::unit_forms))]
fn copy_do(alloc: Global, body: &Stmt, line: u32, test: &Expr) -> Result<Stmt, SyntaxError>
    ensures { IfOk result (λ copy. unit_statement_of copy
        ≡ Do line (unit_statement_of body.now) (expression_of test.now)) }
{
    let body = copy_boxed(alloc, body)?;
    let test = copy_expression(alloc, test)?;
    Ok(Stmt::Do { line, body, test })
}

/// A `for` with this first part and this step, and copies of its condition and its body.
#[cycle(copy_statement)]
#[tactic(auto, using(crate::proofs::UnitLaws::unit_forms))]
fn copy_for(
    alloc: Global,
    body: &Stmt,
    line: u32,
    first: StmtList,
    test: &Expr,
    step: Option<Box<Stmt>>,
) -> Result<Stmt, SyntaxError>
    ensures { IfOk result (λ copy. unit_statement_of copy
        ≡ For line (unit_list_of first) (expression_of test.now) (unit_optional_of step)
        (unit_statement_of body.now)) }
{
    let test = copy_expression(alloc, test)?;
    let body = copy_boxed(alloc, body)?;
    Ok(Stmt::For {
        line,
        first,
        test,
        step,
        body,
    })
}

/// An equal statement, in a box of its own.
#[cycle(copy_statement)]
#[tactic(auto, using(crate::proofs::UnitLaws::unit_forms))]
fn copy_boxed(alloc: Global, from: &Stmt) -> Result<Box<Stmt>, SyntaxError>
    ensures { IfOk result (λ copy. unit_statement_of copy.value ≡ unit_statement_of from.now) }
{
    let copy = copy_statement(alloc, from)?;
    Ok(Box::new(alloc, copy)?)
}

/// An equal statement in a box of its own, where there is one.
#[cycle(copy_statement)]
#[tactic(auto, using(crate::proofs::UnitLaws::unit_forms))]
fn copy_held(alloc: Global, from: &Option<Box<Stmt>>) -> Result<Option<Box<Stmt>>, SyntaxError>
    ensures { IfOk result (λ copy. unit_optional_of copy ≡ unit_optional_of from.now) }
{
    match from {
        None => Ok(None),
        Some(from) => {
            let copy = copy_boxed(alloc, from)?;
            Ok(Some(copy))
        }
    }
}

/// Equal statements, in a list of their own.
#[cycle(copy_statement)]
#[tactic(auto, using(crate::proofs::UnitLaws::unit_forms))]
pub(crate) fn copy_list(alloc: Global, from: &StmtList) -> Result<StmtList, SyntaxError>
    ensures { IfOk result (λ copy. unit_list_of copy ≡ unit_list_of from.now) }
{
    let mut copies = Seq::new(alloc);
    for item in from.as_slice() {
        let copy = copy_statement(alloc, item)?;
        copies.push(copy)?;
    }
    Ok(copies)
}
