ghost use Rattle.std.specs.Prelude.{◌≡◌, ◌++◌, true, false, [], OnOk, IfErr, map, reverse};
ghost use Rattle.pc_syntax.specs.UnitErasure.{unit_statement_of, unit_optional_of, unit_list_of, function_of, unit_of};
ghost use Rattle.pc_calls.specs.Refusals.{refused_if, arity, call_refusals, statement_refusals, optional_refusals, list_refusals, function_refusals, functions_refusals, refusals};
ghost use Rattle.pc_inline.specs.models.First.{IsFirst};

use crate::error::InlineError;
use crate::finding::find;
use pc_syntax::{Function, SourceUnit, Stmt, StmtList};

/// Refuses a call of a function that was not completed before, or with another number of arguments than it
/// has parameters.
#[tactic(auto, using(crate::proofs::Rules::statements))]
fn refuse_call(
    functions: &[Function],
    symbol: u32,
    count: usize,
    at: u32,
) -> Result<(), InlineError>
    ensures passed { OnOk result (call_refusals (arity (reverse (map function_of functions.now)) symbol) count at ≡ []) }
    ensures refused { IfErr result (λ e. IsFirst e (call_refusals (arity (reverse (map function_of functions.now)) symbol) count at)) }
{
    match find(functions, symbol) {
        None => Err(InlineError::NoFunction { line: at }),
        Some(place) => {
            if functions[place].params.len() != count {
                return Err(InlineError::Arguments { line: at });
            }
            Ok(())
        }
    }
}

/// Refuses the first of what a statement is refused for. `in_loop` says whether it stands in a loop's body,
/// `in_function` whether it stands in a function; `functions` are those that it may call.
#[cycle(refuse_statement)]
#[tactic(auto, using(crate::proofs::Rules::statements), unfolding(pc_calls::specs::Refusals::statement_refusals))]
fn refuse_statement(
    statement: &Stmt,
    functions: &[Function],
    in_function: bool,
    in_loop: bool,
) -> Result<(), InlineError>
    ensures passed { OnOk result (statement_refusals (arity (reverse (map function_of functions.now))) in_function in_loop
        (unit_statement_of statement.now) ≡ []) }
    ensures refused { IfErr result (λ e. IsFirst e (statement_refusals (arity (reverse (map function_of functions.now)))
        in_function in_loop (unit_statement_of statement.now))) }
{
    match statement {
        Stmt::Block { items } => refuse_list(items, functions, in_function, in_loop),
        Stmt::If { yes, no, .. } => {
            refuse_statement(yes, functions, in_function, in_loop)?;
            refuse_optional(no, functions, in_function, in_loop)
        }
        Stmt::While { body, .. } | Stmt::Do { body, .. } => {
            refuse_statement(body, functions, in_function, true)
        }
        Stmt::For {
            first,
            step,
            body,
            ..
        } => {
            refuse_list(first, functions, in_function, in_loop)?;
            refuse_optional(step, functions, in_function, in_loop)?;
            refuse_statement(body, functions, in_function, true)
        }
        Stmt::Call {
            function,
            at,
            args,
            ..
        } => { refuse_call(functions, *function, args.len(), *at) }
        Stmt::Array { line, .. } if in_function => Err(InlineError::ArrayInFunction {
            line: *line,
        }),
        Stmt::Return { line, .. } if in_function => Err(InlineError::EarlyReturn { line: *line }),
        Stmt::Break { line } | Stmt::Continue { line } if in_function && !in_loop => {
            Err(InlineError::LooseJump { line: *line })
        }
        Stmt::Array { .. } | Stmt::Return { .. } | Stmt::Break { .. } | Stmt::Continue { .. } => Ok(
            (),
        ),
        Stmt::Scalar { .. } | Stmt::Assign { .. } | Stmt::Print { .. } => Ok(()),
        Stmt::Eval { .. } | Stmt::Empty => Ok(()),
    }
}

/// The same of a statement that may be left out.
#[cycle(refuse_statement)]
#[tactic(auto, using(crate::proofs::Rules::statements), unfolding(pc_calls::specs::Refusals::statement_refusals))]
fn refuse_optional(
    statement: &Option<Box<Stmt>>,
    functions: &[Function],
    in_function: bool,
    in_loop: bool,
) -> Result<(), InlineError>
    ensures passed { OnOk result (optional_refusals (arity (reverse (map function_of functions.now))) in_function in_loop
        (unit_optional_of statement.now) ≡ []) }
    ensures refused { IfErr result (λ e. IsFirst e (optional_refusals (arity (reverse (map function_of functions.now)))
        in_function in_loop (unit_optional_of statement.now))) }
{
    match statement {
        None => Ok(()),
        Some(statement) => refuse_statement(statement, functions, in_function, in_loop),
    }
}

/// The same of statements in order.
#[cycle(refuse_statement)]
#[tactic(auto, using(crate::proofs::Rules::statements), unfolding(pc_calls::specs::Refusals::statement_refusals))]
fn refuse_list(
    items: &StmtList,
    functions: &[Function],
    in_function: bool,
    in_loop: bool,
) -> Result<(), InlineError>
    ensures passed { OnOk result (list_refusals (arity (reverse (map function_of functions.now))) in_function in_loop
        (unit_list_of items.now) ≡ []) }
    ensures refused { IfErr result (λ e. IsFirst e (list_refusals (arity (reverse (map function_of functions.now)))
        in_function in_loop (unit_list_of items.now))) }
{
    for item in items.as_slice() {
        refuse_statement(item, functions, in_function, in_loop)?;
    }
    Ok(())
}

/// The same of a function, which may call the functions before it.
#[tactic(auto, using(crate::proofs::Rules::statements))]
fn refuse_function(function: &Function, earlier: &[Function]) -> Result<(), InlineError>
    ensures passed { OnOk result (function_refusals (reverse (map function_of earlier.now)) (function_of function.now) ≡ []) }
    ensures refused { IfErr result (λ e. IsFirst e (function_refusals (reverse (map function_of earlier.now))
        (function_of function.now))) }
{
    match find(earlier, function.symbol) {
        Some(_) => Err(InlineError::FunctionTwice {
            line: function.line,
        }),
        None => refuse_list(&function.items, earlier, true, false),
    }
}

/// The same of functions in the order of the text.
fn refuse_functions(functions: &[Function]) -> Result<(), InlineError>
    ensures passed { OnOk result (functions_refusals (reverse (map function_of functions.now)) ≡ []) }
    ensures refused { IfErr result (λ e. IsFirst e (functions_refusals (reverse (map function_of functions.now)))) }
{
    for (at, function) in functions.iter().enumerate() {
        refuse_function(function, &functions[..at])?;
    }
    Ok(())
}

/// Refuses the first of what a unit is refused for, but for its size.
#[tactic(auto, using(crate::proofs::Rules::statements))]
pub(crate) fn refuse_unit(unit: &SourceUnit) -> Result<(), InlineError>
    ensures passed { OnOk result (refusals (unit_of unit.now) ≡ []) }
    ensures refused { IfErr result (λ e. IsFirst e (refusals (unit_of unit.now))) }
{
    let functions = unit.functions.as_slice();
    refuse_functions(functions)?;
    refuse_list(&unit.main.items, functions, false, false)
}
