//! The scalars and arrays that a program declares.
ghost use Rattle.std.specs.Prelude.{◌≡◌, OnOk};
ghost use Rattle.pc_syntax.specs.Erasure.{statement_of, optional_of, list_of};
ghost use Rattle.pc_names.specs.Declarations.{with_declared, with_branch, with_list};

use pc_syntax::{Stmt, StmtList};
use pc_word::Seq;
use std::alloc::AllocError;

/// The symbols of the scalars and of the arrays that statements declare, each in the order of the text.
#[derive(Drop)]
pub(crate) struct DeclaredSymbols {
    pub(crate) scalars: Seq<u32>,
    pub(crate) arrays: Seq<u32>,
}

/// Appends the symbols of the scalars and of the arrays that a statement declares, in the order of the text.
#[cycle(push_declared)]
#[tactic(auto, using(pc_syntax::proofs::ErasureLaws::statement_forms), unfolding(crate::specs::Declarations::with_declared))]
fn push_declared(symbols: &mut DeclaredSymbols, statement: &Stmt) -> Result<(), AllocError>
    ensures { OnOk result (symbols.new ≡ with_declared (statement_of statement.now) symbols.old) }
{
    match statement {
        Stmt::Block { items } => push_list(symbols, items),
        Stmt::Scalar { symbol, .. } => symbols.scalars.push(*symbol),
        Stmt::Array { symbol, .. } => symbols.arrays.push(*symbol),
        Stmt::If { yes, no, .. } => {
            push_declared(symbols, yes)?;
            push_branch(symbols, no)
        }
        Stmt::While { body, .. } | Stmt::Do { body, .. } => push_declared(symbols, body),
        Stmt::For {
            first,
            step,
            body,
            ..
        } => {
            push_list(symbols, first)?;
            push_branch(symbols, step)?;
            push_declared(symbols, body)
        }
        Stmt::Assign { .. } | Stmt::Print { .. } | Stmt::Eval { .. } => Ok(()),
        Stmt::Break { .. } | Stmt::Continue { .. } | Stmt::Return { .. } => Ok(()),
        Stmt::Empty | Stmt::Call { .. } => Ok(()),
    }
}

/// The same of a statement that may be left out.
#[cycle(push_declared)]
#[tactic(auto, using(pc_syntax::proofs::ErasureLaws::statement_forms), unfolding(crate::specs::Declarations::with_declared))]
fn push_branch(
    symbols: &mut DeclaredSymbols,
    statement: &Option<Box<Stmt>>,
) -> Result<(), AllocError>
    ensures { OnOk result (symbols.new ≡ with_branch (optional_of statement.now) symbols.old) }
{
    match statement {
        None => Ok(()),
        Some(statement) => push_declared(symbols, statement),
    }
}

/// The same of statements in order.
#[cycle(push_declared)]
#[tactic(auto, using(pc_syntax::proofs::ErasureLaws::statement_forms), unfolding(crate::specs::Declarations::with_declared))]
pub(crate) fn push_list(symbols: &mut DeclaredSymbols, items: &StmtList) -> Result<(), AllocError>
    ensures { OnOk result (symbols.new ≡ with_list (list_of items.now) symbols.old) }
{
    for item in items.as_slice() {
        push_declared(symbols, item)?;
    }
    Ok(())
}
