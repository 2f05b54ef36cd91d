ghost use Rattle.std.specs.Prelude.{◌≡◌, ◌<◌, true, [], OnOk, IfOk, IfErr, option_map};
ghost use Rattle.pc_syntax.specs.Erasure.{expression_of};
ghost use Rattle.pc_check.specs.Names.{found};
ghost use Rattle.pc_check.specs.Faults.{scalar_use, array_use, expression_faults, optional_faults};
ghost use Rattle.pc_check.specs.Resolution.{number_in_slot, slot_number, resolved_expression};
ghost use Rattle.pc_check.specs.models.Resolves.{IsFirst, ExpressionResolves, OptionalResolves};
ghost use Rattle.pc_check.specs.models.Parts.{is_named, is_binary};
ghost use Rattle.pc_check.specs.models.View.{names_of};

use crate::error::CheckError;
use crate::scopes::Scopes;
use crate::slot::Slot;
use pc_syntax::Expr;
use std::alloc::Global;

/// The number of a scalar, by its name.
pub(crate) fn scalar_slot(scopes: &Scopes, symbol: u32, line: u32) -> Result<u32, CheckError>
    ensures faultless { OnOk result (scalar_use (found (names_of scopes.now) symbol) line ≡ []) }
    ensures number { IfOk result (λ number. number ≡ slot_number (names_of scopes.now) symbol) }
    ensures refused { IfErr result (λ e. IsFirst e (scalar_use (found (names_of scopes.now) symbol) line)) }
{
    match scopes.find(symbol) {
        None => Err(CheckError::Undeclared { line }),
        Some(Slot::Array { .. }) => Err(CheckError::NotScalar { line }),
        Some(Slot::Scalar { number }) => Ok(u32::from(number)),
    }
}

/// The number of an array, by its name.
pub(crate) fn array_slot(scopes: &Scopes, symbol: u32, line: u32) -> Result<u32, CheckError>
    ensures faultless { OnOk result (array_use (found (names_of scopes.now) symbol) line ≡ []) }
    ensures number { IfOk result (λ number. number ≡ slot_number (names_of scopes.now) symbol) }
    ensures refused { IfErr result (λ e. IsFirst e (array_use (found (names_of scopes.now) symbol) line)) }
{
    match scopes.find(symbol) {
        None => Err(CheckError::Undeclared { line }),
        Some(Slot::Scalar { .. }) => Err(CheckError::NotArray { line }),
        Some(Slot::Array { number }) => Ok(u32::from(number)),
    }
}

/// The expression with the number of its slot for each name.
#[cycle(resolve_expression)]
#[tactic(auto, using(crate::proofs::Rules::expressions), unfolding(crate::specs::Faults::expression_faults, crate::specs::Resolution::resolved_expression))]
pub(crate) fn resolve_expression(
    alloc: Global,
    scopes: &Scopes,
    from: &Expr,
) -> Result<Expr, CheckError>
    ensures resolved { IfOk result (λ to. ExpressionResolves (names_of scopes.now) (expression_of from.now)
        (expression_of to)) }
    ensures refused { IfErr result (λ e. IsFirst e
        (expression_faults (names_of scopes.now) (expression_of from.now))) }
{
    match from {
        Expr::Lit { value } => Ok(Expr::Lit { value: *value }),
        Expr::Read { line } => Ok(Expr::Read { line: *line }),
        Expr::Name { .. } | Expr::Element { .. } => resolve_named(alloc, scopes, from),
        Expr::Unary { op, of } => {
            let of = resolve_boxed(alloc, scopes, of)?;
            Ok(Expr::Unary { op: *op, of })
        }
        Expr::Binary { .. } => resolve_binary(alloc, scopes, from),
        Expr::Both { left, right } => {
            let left = resolve_boxed(alloc, scopes, left)?;
            let right = resolve_boxed(alloc, scopes, right)?;
            Ok(Expr::Both { left, right })
        }
        Expr::Either { left, right } => {
            let left = resolve_boxed(alloc, scopes, left)?;
            let right = resolve_boxed(alloc, scopes, right)?;
            Ok(Expr::Either { left, right })
        }
        Expr::Choose { test, yes, no } => {
            let test = resolve_boxed(alloc, scopes, test)?;
            let yes = resolve_boxed(alloc, scopes, yes)?;
            let no = resolve_boxed(alloc, scopes, no)?;
            Ok(Expr::Choose { test, yes, no })
        }
    }
}

/// The same of a name or an element.
#[cycle(resolve_expression)]
#[tactic(auto, using(crate::proofs::Rules::expressions), unfolding(crate::specs::Faults::expression_faults, crate::specs::Resolution::resolved_expression))]
fn resolve_named(alloc: Global, scopes: &Scopes, from: &Expr) -> Result<Expr, CheckError>
    requires { is_named (expression_of from.now) ≡ true }
    ensures resolved { IfOk result (λ to. ExpressionResolves (names_of scopes.now) (expression_of from.now)
        (expression_of to)) }
    ensures refused { IfErr result (λ e. IsFirst e
        (expression_faults (names_of scopes.now) (expression_of from.now))) }
{
    match from {
        Expr::Name { symbol, line } => {
            let symbol = scalar_slot(scopes, *symbol, *line)?;
            Ok(Expr::Name {
                symbol,
                line: *line,
            })
        }
        Expr::Element {
            symbol,
            line,
            at,
            index,
        } => {
            let symbol = array_slot(scopes, *symbol, *line)?;
            let index = resolve_boxed(alloc, scopes, index)?;
            Ok(Expr::Element {
                symbol,
                line: *line,
                at: *at,
                index,
            })
        }
        Expr::Lit { .. } | Expr::Read { .. } | Expr::Unary { .. } => unreachable!(),
        Expr::Binary { .. } | Expr::Both { .. } => unreachable!(),
        Expr::Either { .. } | Expr::Choose { .. } => unreachable!(),
    }
}

/// The same of a binary operator.
#[cycle(resolve_expression)]
#[tactic(auto, using(crate::proofs::Rules::expressions), unfolding(crate::specs::Faults::expression_faults, crate::specs::Resolution::resolved_expression))]
fn resolve_binary(alloc: Global, scopes: &Scopes, from: &Expr) -> Result<Expr, CheckError>
    requires { is_binary (expression_of from.now) ≡ true }
    ensures resolved { IfOk result (λ to. ExpressionResolves (names_of scopes.now) (expression_of from.now)
        (expression_of to)) }
    ensures refused { IfErr result (λ e. IsFirst e
        (expression_faults (names_of scopes.now) (expression_of from.now))) }
{
    match from {
        Expr::Binary {
            op,
            at,
            left,
            right,
        } => {
            let left = resolve_boxed(alloc, scopes, left)?;
            let right = resolve_boxed(alloc, scopes, right)?;
            Ok(Expr::Binary {
                op: *op,
                at: *at,
                left,
                right,
            })
        }
        Expr::Lit { .. } | Expr::Name { .. } | Expr::Read { .. } => unreachable!(),
        Expr::Element { .. } | Expr::Unary { .. } | Expr::Both { .. } => unreachable!(),
        Expr::Either { .. } | Expr::Choose { .. } => unreachable!(),
    }
}

/// The same, in a box of its own.
#[cycle(resolve_expression)]
#[tactic(auto, using(crate::proofs::Rules::expressions), unfolding(crate::specs::Faults::expression_faults, crate::specs::Resolution::resolved_expression))]
fn resolve_boxed(alloc: Global, scopes: &Scopes, from: &Expr) -> Result<Box<Expr>, CheckError>
    ensures resolved { IfOk result (λ to. ExpressionResolves (names_of scopes.now) (expression_of from.now)
        (expression_of to.value)) }
    ensures refused { IfErr result (λ e. IsFirst e
        (expression_faults (names_of scopes.now) (expression_of from.now))) }
{
    let to = resolve_expression(alloc, scopes, from)?;
    Ok(Box::new(alloc, to)?)
}

/// The same of an expression that may be left out.
#[tactic(auto, using(crate::proofs::Rules::expressions), unfolding(crate::specs::Faults::expression_faults, crate::specs::Resolution::resolved_expression))]
pub(crate) fn resolve_optional(
    alloc: Global,
    scopes: &Scopes,
    from: &Option<Expr>,
) -> Result<Option<Expr>, CheckError>
    ensures resolved { IfOk result (λ to. OptionalResolves (names_of scopes.now)
        (option_map expression_of from.now) (option_map expression_of to)) }
    ensures refused { IfErr result (λ e. IsFirst e
        (optional_faults (names_of scopes.now) (option_map expression_of from.now))) }
{
    match from {
        None => Ok(None),
        Some(from) => {
            let to = resolve_expression(alloc, scopes, from)?;
            Ok(Some(to))
        }
    }
}
