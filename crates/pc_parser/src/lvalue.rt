ghost use Rattle.std.specs.Prelude.{◌≡◌, ◌≤◌, max, IfOk, MatchResult};
ghost use Rattle.pc_syntax.specs.Erasure.{expression_of};
ghost use Rattle.pc_parser.specs.models.ExpressionParser.{lvalue_tree, lvalue_height};
ghost use Rattle.pc_parser.specs.models.Parsing.{lvalue_of};
ghost use Rattle.pc_parser.specs.declared.outcome.Failure.TheVariants.{Memory};

use crate::outcome::Failure;
use pc_syntax::Expr;
use std::alloc::Global;

/// What is assigned to: a name, or an element where it has an index. `bracket` is the line of `[`, and
/// equals `line` where there is no index.
#[derive(Debug, Drop)]
pub(crate) struct Lvalue {
    pub(crate) symbol: u32,
    pub(crate) line: u32,
    pub(crate) index: Option<Expr>,
    pub(crate) bracket: u32,
}

/// The lvalue as an expression.
#[tactic(auto, using(pc_syntax::proofs::ErasureLaws::expression_forms))]
pub(crate) fn lvalue_tree(alloc: Global, lvalue: Lvalue) -> Result<Expr, Failure>
    ensures { MatchResult result (λ tree. expression_of tree ≡ lvalue_tree (lvalue_of lvalue)) (λ failure. failure ≡ Memory) }
{
    let Lvalue {
        symbol,
        line,
        index,
        bracket,
    } = lvalue;
    match index {
        None => Ok(Expr::Name { symbol, line }),
        Some(index) => {
            let index = Box::new(alloc, index)?;
            Ok(Expr::Element {
                symbol,
                line,
                at: bracket,
                index,
            })
        }
    }
}

/// The height of an lvalue as an expression, from its height as an lvalue.
pub(crate) fn height_as_tree(lvalue: &Lvalue, height: usize) -> usize
    ensures value { result ≡ lvalue_height (lvalue_of lvalue.now) height }
    ensures low { result ≤ max height 1 }
{
    match lvalue.index {
        None => 1,
        Some(_) => height,
    }
}
