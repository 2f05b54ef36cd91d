ghost use Rattle.std.specs.Prelude.{◌≡◌, true, IfOk, option_map, map};
ghost use Rattle.pc_syntax.specs.Source.{Variable, Indexed};
ghost use Rattle.pc_syntax.specs.models.Parts.{is_combined};
ghost use Rattle.pc_syntax.specs.Erasure.{expression_of};
ghost use Rattle.pc_calls.specs.Inline.{renamed, renamed_optional};
ghost use Rattle.pc_inline.specs.models.Sites.{shifted};

use pc_syntax::Expr;
use pc_word::OutOfMemory;
use std::alloc::Global;

/// The symbol that stands for a symbol of the text in a copy with this offset.
#[tactic(auto, unfolding(crate::specs::models::Sites::shifted))]
pub(crate) fn shift(symbol: u32, offset: u32) -> u32
    ensures { result ≡ shifted offset symbol }
{
    offset.wrapping_add(symbol)
}

/// An expression with the symbols of a copy.
#[cycle(rename_expression)]
#[tactic(auto, using(pc_syntax::proofs::ErasureLaws::expression_forms), unfolding(pc_calls::specs::Inline::renamed))]
pub(crate) fn rename_expression(
    alloc: Global,
    from: &Expr,
    offset: u32,
) -> Result<Expr, OutOfMemory>
    ensures { IfOk result (λ copy. expression_of copy ≡ renamed (shifted offset) (expression_of from.now)) }
{
    match from {
        Expr::Lit { value } => Ok(Expr::Lit { value: *value }),
        Expr::Name { symbol, line } => Ok(name(shift(*symbol, offset), *line)),
        Expr::Read { line } => Ok(Expr::Read { line: *line }),
        Expr::Element {
            symbol,
            line,
            at,
            index,
        } => rename_element(alloc, index, *symbol, *line, *at, offset),
        Expr::Unary { op, of } => {
            let of = rename_boxed(alloc, of, offset)?;
            Ok(Expr::Unary { op: *op, of })
        }
        Expr::Binary { .. } | Expr::Both { .. } | Expr::Either { .. } => {
            rename_combined(alloc, from, offset)
        }
        Expr::Choose { test, yes, no } => {
            let test = rename_boxed(alloc, test, offset)?;
            let yes = rename_boxed(alloc, yes, offset)?;
            let no = rename_boxed(alloc, no, offset)?;
            Ok(Expr::Choose { test, yes, no })
        }
    }
}

/// The same of an operator with two operands.
#[cycle(rename_expression)]
#[tactic(auto, using(pc_syntax::proofs::ErasureLaws::expression_forms), unfolding(pc_calls::specs::Inline::renamed))]
fn rename_combined(alloc: Global, from: &Expr, offset: u32) -> Result<Expr, OutOfMemory>
    requires { is_combined (expression_of from.now) ≡ true }
    ensures { IfOk result (λ copy. expression_of copy ≡ renamed (shifted offset) (expression_of from.now)) }
{
    match from {
        Expr::Binary {
            op,
            at,
            left,
            right,
        } => {
            let left = rename_boxed(alloc, left, offset)?;
            let right = rename_boxed(alloc, right, offset)?;
            Ok(Expr::Binary {
                op: *op,
                at: *at,
                left,
                right,
            })
        }
        Expr::Both { left, right } => {
            let left = rename_boxed(alloc, left, offset)?;
            let right = rename_boxed(alloc, right, offset)?;
            Ok(Expr::Both { left, right })
        }
        Expr::Either { left, right } => {
            let left = rename_boxed(alloc, left, offset)?;
            let right = rename_boxed(alloc, right, offset)?;
            Ok(Expr::Either { left, right })
        }
        Expr::Lit { .. } | Expr::Name { .. } | Expr::Read { .. } => unreachable!(),
        Expr::Element { .. } | Expr::Unary { .. } | Expr::Choose { .. } => unreachable!(),
    }
}

/// A name.
#[tactic(auto, using(pc_syntax::proofs::ErasureLaws::expression_forms))]
fn name(symbol: u32, line: u32) -> Expr
    ensures { expression_of result ≡ Variable symbol line }
{
    Expr::Name { symbol, line }
}

/// An element, by its index and its symbol in the text.
#[cycle(rename_expression)]
#[tactic(auto, using(pc_syntax::proofs::ErasureLaws::expression_forms), unfolding(pc_calls::specs::Inline::renamed))]
fn rename_element(
    alloc: Global,
    index: &Expr,
    symbol: u32,
    line: u32,
    at: u32,
    offset: u32,
) -> Result<Expr, OutOfMemory>
    ensures { IfOk result (λ copy. expression_of copy
        ≡ Indexed (shifted offset symbol) line at (renamed (shifted offset) (expression_of index.now))) }
{
    let index = rename_boxed(alloc, index, offset)?;
    Ok(Expr::Element {
        symbol: shift(symbol, offset),
        line,
        at,
        index,
    })
}

/// An expression with the symbols of a copy, in a box of its own.
#[cycle(rename_expression)]
fn rename_boxed(alloc: Global, from: &Expr, offset: u32) -> Result<Box<Expr>, OutOfMemory>
    ensures { IfOk result (λ copy. expression_of copy.value ≡ renamed (shifted offset) (expression_of from.now)) }
{
    let copy = rename_expression(alloc, from, offset)?;
    Ok(Box::new(alloc, copy)?)
}

/// The same of an expression that may be left out.
pub(crate) fn rename_optional(
    alloc: Global,
    from: &Option<Expr>,
    offset: u32,
) -> Result<Option<Expr>, OutOfMemory>
    ensures { IfOk result (λ copy. option_map expression_of copy
        ≡ renamed_optional (shifted offset) (option_map expression_of from.now)) }
{
    match from {
        None => Ok(None),
        Some(from) => {
            let copy = rename_expression(alloc, from, offset)?;
            Ok(Some(copy))
        }
    }
}
