ghost use Rattle.std.specs.Prelude.{◌≡◌, true, None, OnOk, IfOk, option_map, map};
ghost use Rattle.pc_syntax.specs.Source.{SourceList, SourceExpression, No_more};
ghost use Rattle.pc_syntax.specs.Unit.{Array, Assign, unit_appended};
ghost use Rattle.pc_syntax.specs.Plain.{plain_statement, plain_list};
ghost use Rattle.pc_syntax.specs.Erasure.{expression_of};
ghost use Rattle.pc_syntax.specs.UnitErasure.{unit_statement_of, unit_list_of};
ghost use Rattle.pc_calls.specs.Inline.{renamed, renamed_optional, renamed_parameter, declarator_list, result_list, parameters_list, in_one, inlined};
ghost use Rattle.std.specs.Option.{option_copied};
ghost use Rattle.pc_inline.specs.models.Sites.{shifted, site_in, target_list, argument_list};
ghost use Rattle.pc_inline.specs.models.Parts.{is_simple};

use crate::expressions::{rename_expression, rename_optional, shift};
use crate::site::Site;
use pc_syntax::{BinaryOp, ConstList, Expr, ExprList, Param, Stmt, StmtList, Target};
use pc_word::{OutOfMemory, Seq};
use std::alloc::Global;

/// An assignment to a scalar, with one line for all that has one.
#[tactic(auto, using(crate::proofs::Rules::copies))]
fn assignment(symbol: u32, line: u32, value: Expr) -> Stmt
    ensures { unit_statement_of result ≡ Assign symbol line None line None line (expression_of value) }
{
    Stmt::Assign {
        symbol,
        line,
        index: None,
        bracket: line,
        op: None,
        at: line,
        value,
    }
}

/// The declaration of a scalar, which in a function is set to 0 before its initialiser.
#[tactic(auto, using(crate::proofs::Rules::copies), unfolding(pc_syntax::specs::Plain::plain_statement))]
pub(crate) fn copy_scalar(
    alloc: Global,
    symbol: u32,
    line: u32,
    init: &Option<Expr>,
    site: Site,
    into: &mut StmtList,
) -> Result<(), OutOfMemory>
    ensures { OnOk result (unit_list_of into.new ≡ unit_appended (unit_list_of into.old)
        (plain_list (declarator_list site.entry.in_function (shifted site.entry.offset symbol) line
        (renamed_optional (shifted site.entry.offset) (option_map expression_of init.now))))) }
{
    let symbol = shift(symbol, site.offset);
    match rename_optional(alloc, init, site.offset)? {
        Some(value) if site.in_function => {
            into.push(Stmt::Scalar {
                symbol,
                line,
                init: None,
            })?;
            into.push(assignment(symbol, line, value))?;
        }
        init => into.push(Stmt::Scalar { symbol, line, init })?,
    }
    Ok(())
}

/// The declaration of a call's target, where the call declares it.
#[tactic(auto, using(crate::proofs::Rules::copies), unfolding(pc_syntax::specs::Plain::plain_statement))]
pub(crate) fn declare_target(
    target: Option<Target>,
    site: Site,
    into: &mut StmtList,
) -> Result<(), OutOfMemory>
    ensures { OnOk result (unit_list_of into.new ≡ unit_appended (unit_list_of into.old)
        (plain_list (target_list (shifted site.entry.offset) target))) }
{
    if let Some(target) = target {
        if target.declared {
            into.push(Stmt::Scalar {
                symbol: shift(target.symbol, site.offset),
                line: target.line,
                init: None,
            })?;
        }
    }
    Ok(())
}

/// The declaration of a parameter with its argument, where there is one.
#[tactic(auto, using(crate::proofs::Rules::copies), unfolding(pc_syntax::specs::Plain::plain_statement))]
fn copy_parameter(
    alloc: Global,
    param: Param,
    argument: Option<&Expr>,
    inner: u32,
    offset: u32,
    into: &mut StmtList,
) -> Result<(), OutOfMemory>
    ensures { OnOk result (unit_list_of into.new ≡ unit_appended (unit_list_of into.old)
        (plain_list (argument_list (renamed_parameter (shifted inner) param)
        (option_map (renamed (shifted offset)) (option_map expression_of (option_copied argument.entry)))))) }
{
    if let Some(argument) = argument {
        let value = rename_expression(alloc, argument, offset)?;
        into.push(Stmt::Scalar {
            symbol: shift(param.symbol, inner),
            line: param.line,
            init: Some(value),
        })?;
    }
    Ok(())
}

/// The declarations of parameters with their arguments. The parameters have the symbols of the copy, and
/// the arguments those of the caller.
#[tactic(auto, using(crate::proofs::Rules::copies), unfolding(pc_syntax::specs::Plain::plain_statement))]
pub(crate) fn copy_parameters(
    alloc: Global,
    params: &[Param],
    args: &ExprList,
    inner: u32,
    offset: u32,
    into: &mut StmtList,
) -> Result<(), OutOfMemory>
    ensures { OnOk result (unit_list_of into.new ≡ unit_appended (unit_list_of into.old)
        (plain_list (parameters_list (map (renamed_parameter (shifted inner)) params.now)
        (map (renamed (shifted offset)) (map expression_of args.now))))) }
{
    for (at, param) in params.iter().enumerate() {
        copy_parameter(alloc, *param, args.get(at), inner, offset, into)?;
    }
    Ok(())
}

/// What is done with the result of a copy, or with 0 where it has none.
#[tactic(auto, using(crate::proofs::Rules::copies), unfolding(pc_syntax::specs::Plain::plain_statement))]
pub(crate) fn copy_result(
    alloc: Global,
    line: u32,
    target: Option<Target>,
    result_of: &Option<Expr>,
    inner: u32,
    offset: u32,
    into: &mut StmtList,
) -> Result<(), OutOfMemory>
    ensures { OnOk result (unit_list_of into.new ≡ unit_appended (unit_list_of into.old)
        (plain_list (result_list (shifted offset) line target
        (renamed_optional (shifted inner) (option_map expression_of result_of.now))))) }
{
    let value = rename_optional(alloc, result_of, inner)?;
    match (target, value) {
        (None, None) => Ok(()),
        (None, Some(value)) => {
            into.push(Stmt::Eval { line, value })?;
            Ok(())
        }
        (Some(target), None) => {
            let zero = Expr::Lit { value: 0 };
            into.push(assignment(shift(target.symbol, offset), target.line, zero))?;
            Ok(())
        }
        (Some(target), Some(value)) => {
            into.push(assignment(shift(target.symbol, offset), target.line, value))?;
            Ok(())
        }
    }
}

/// What stands in the place of a statement that neither declares a scalar nor holds others, nor is a call.
#[tactic(auto, using(crate::proofs::Rules::copies), unfolding(pc_calls::specs::Inline::inlined, pc_syntax::specs::Plain::plain_statement))]
pub(crate) fn copy_simple(alloc: Global, from: &Stmt, site: Site) -> Result<Stmt, OutOfMemory>
    requires { is_simple (unit_statement_of from.now) ≡ true }
    ensures { IfOk result (λ copy. unit_statement_of copy ≡ plain_statement (inlined (site_in site.entry) (unit_statement_of from.now))) }
{
    match from {
        Stmt::Array {
            symbol,
            line,
            at,
            length,
            values,
        } => copy_array(
            alloc,
            shift(*symbol, site.offset),
            *line,
            *at,
            *length,
            values,
        ),
        Stmt::Assign {
            symbol,
            line,
            index,
            bracket,
            op,
            at,
            value,
        } => copy_assignment(
            alloc,
            *symbol,
            *line,
            index,
            *bracket,
            *op,
            *at,
            value,
            site.offset,
        ),
        Stmt::Print { line, value } => {
            let value = rename_expression(alloc, value, site.offset)?;
            Ok(Stmt::Print { line: *line, value })
        }
        Stmt::Eval { line, value } => {
            let value = rename_expression(alloc, value, site.offset)?;
            Ok(Stmt::Eval { line: *line, value })
        }
        Stmt::Return { line, value } => {
            let value = rename_expression(alloc, value, site.offset)?;
            Ok(Stmt::Return { line: *line, value })
        }
        Stmt::Break { line } => Ok(Stmt::Break { line: *line }),
        Stmt::Continue { line } => Ok(Stmt::Continue { line: *line }),
        Stmt::Empty => Ok(Stmt::Empty),
        Stmt::Block { .. } | Stmt::If { .. } | Stmt::While { .. } => unreachable!(),
        Stmt::Do { .. } | Stmt::For { .. } => unreachable!(),
        Stmt::Scalar { .. } | Stmt::Call { .. } => unreachable!(),
    }
}

/// The declarator of an array.
#[tactic(auto, using(crate::proofs::Rules::copies))]
fn copy_array(
    alloc: Global,
    symbol: u32,
    line: u32,
    at: u32,
    length: u32,
    values: &ConstList,
) -> Result<Stmt, OutOfMemory>
    ensures { IfOk result (λ copy. unit_statement_of copy ≡ Array symbol line at length values.now) }
{
    let values = Seq::from_slice(alloc, values.as_slice())?;
    Ok(Stmt::Array {
        symbol,
        line,
        at,
        length,
        values,
    })
}

/// An assignment, by its parts in the text.
#[tactic(auto, using(crate::proofs::Rules::copies))]
fn copy_assignment(
    alloc: Global,
    symbol: u32,
    line: u32,
    index: &Option<Expr>,
    bracket: u32,
    op: Option<BinaryOp>,
    at: u32,
    value: &Expr,
    offset: u32,
) -> Result<Stmt, OutOfMemory>
    ensures { IfOk result (λ copy. unit_statement_of copy
        ≡ Assign (shifted offset symbol) line (renamed_optional (shifted offset) (option_map expression_of index.now)) bracket op at
        (renamed (shifted offset) (expression_of value.now))) }
{
    let index = rename_optional(alloc, index, offset)?;
    let value = rename_expression(alloc, value, offset)?;
    Ok(Stmt::Assign {
        symbol: shift(symbol, offset),
        line,
        index,
        bracket,
        op,
        at,
        value,
    })
}

/// The one statement of a list, or a block of several.
#[tactic(auto, using(crate::proofs::Rules::copies))]
pub(crate) fn one_of(items: StmtList) -> Stmt
    ensures { (l : SourceList) → unit_list_of items ≡ plain_list l → unit_statement_of result ≡ plain_statement (in_one l) }
{
    let mut items = items;
    if items.len() != 1 {
        return if items.is_empty() {
            Stmt::Empty
        } else {
            Stmt::Block { items }
        };
    }
    match items.pop() {
        Some(only) => only,
        None => Stmt::Empty,
    }
}
