//! Rows made compact.
ghost use Rattle.std.specs.Prelude.{◌≡◌, All, IfOk};
ghost use Rattle.pc_machine.specs.MachineCode.{code_of, rows_of};
ghost use Rattle.pc_machine.specs.WellFormed.{WellFormed};
ghost use Rattle.pc_tighten.specs.Tightened.{IsTightened};
ghost use Rattle.pc_tighten.specs.models.Drafts.{IsSplit, draft_rows};
ghost use Rattle.pc_tighten.specs.models.Gotos.{AreRemoved, AreTightened};
ghost use Rattle.pc_tighten.specs.models.Raising.{IsRaised};

use crate::draft::{Draft, drafted, rebuilt};
use crate::error::TightenError;
use crate::raising::raise_all;
use crate::removing::remove_all;
use pc_machine::{Code, Tree, TreeList};
use pc_word::Limits;
use std::alloc::{AllocError, Global};

/// The code without rows that are a goto alone to another row, but for row 0: what led to them is sent on, and the
/// rows after them get lower numbers. Then each item is brought up as many rows as it may go: from a row to which one
/// leaf alone leads to the end of the path to that leaf, as in percolation scheduling (Nicolau 1985). Rows that are such
/// a goto then go too.
///
/// Rows go first so that no item comes to stand in one that had none, which would have to stay then.
///
/// `Memory` is the only error. It also comes where there are 2^32 rows or more.
pub fn tighten(alloc: Global, code: Code) -> Result<Code, TightenError>
    requires { WellFormed (code_of code) }
    ensures { IfOk result (λ after. IsTightened (code_of code) (code_of after)) }
{
    let Code {
        limits,
        registers,
        arrays,
        initial,
        rows,
    } = code;
    let rows = tightened(alloc, limits, rows)?;
    Ok(Code {
        limits,
        registers,
        arrays,
        initial,
        rows: TreeList::from_vec(rows),
    })
}

/// The rows without those that are a goto alone to another row, with each item brought up as many rows as it may go,
/// and then again without those that are such a goto.
#[tactic(auto, using(crate::proofs::Outcome::in_order))]
fn tightened(alloc: Global, limits: Limits, rows: TreeList) -> Result<Vec<Tree>, AllocError>
    ensures { IfOk result (λ after. AreTightened limits (rows_of rows) (rows_of after.items)) }
{
    let first = without_gotos(alloc, rows)?;
    let mut rows = raised(alloc, limits, first)?;
    remove_all(alloc, &mut rows)?;
    Ok(rows)
}

/// The rows without those that are a goto alone to another row.
#[tactic(auto, using(crate::proofs::Outcome::in_order))]
fn without_gotos(alloc: Global, rows: TreeList) -> Result<Vec<Tree>, AllocError>
    ensures { IfOk result (λ left. AreRemoved (rows_of rows) (rows_of left.items)) }
{
    let mut left = listed(alloc, rows)?;
    remove_all(alloc, &mut left)?;
    Ok(left)
}

/// The rows of a list.
fn listed(alloc: Global, mut rows: TreeList) -> Result<Vec<Tree>, AllocError>
    ensures { IfOk result (λ listed. rows_of listed.items ≡ rows_of rows) }
{
    let mut listed = Vec::new(alloc);
    while let Some(tree) = rows.pop() {
        listed.push(tree)?;
    }
    listed.reverse();
    Ok(listed)
}

/// The rows with each item brought up as many rows as it may go.
#[tactic(auto, using(crate::proofs::Outcome::in_order))]
fn raised(alloc: Global, limits: Limits, rows: Vec<Tree>) -> Result<Vec<Tree>, AllocError>
    ensures { IfOk result (λ raised. IsRaised limits (rows_of rows.items) (rows_of raised.items)) }
{
    let mut drafts = drafts(alloc, rows)?;
    raise_all(alloc, limits, &mut drafts)?;
    let rows = trees(alloc, drafts)?;
    Ok(rows)
}

/// The drafts of rows.
fn drafts(alloc: Global, mut rows: Vec<Tree>) -> Result<Vec<Draft>, AllocError>
    ensures rows { IfOk result (λ drafts. draft_rows drafts.items ≡ rows_of rows.items) }
    ensures split { IfOk result (λ drafts. All IsSplit drafts.items) }
{
    let mut drafts = Vec::new(alloc);
    while let Some(tree) = rows.pop() {
        drafts.push(drafted(alloc, tree)?)?;
    }
    drafts.reverse();
    Ok(drafts)
}

/// The trees of drafts.
fn trees(alloc: Global, drafts: Vec<Draft>) -> Result<Vec<Tree>, AllocError>
    ensures { IfOk result (λ rows. rows_of rows.items ≡ draft_rows drafts.items) }
{
    let mut rows = Vec::new(alloc);
    for draft in drafts {
        rows.push(rebuilt(alloc, draft)?)?;
    }
    Ok(rows)
}
