//! Rows in the making.
ghost use Rattle.std.specs.Prelude.{◌≡◌, ◌+◌, [], ◌∷◌, ◌++◌, length, IfOk, IfSome, OnOk};
ghost use Rattle.pc_machine.specs.MachineCode.{row_of, rows_of};
ghost use Rattle.pc_emit.specs.models.Output.{OutputGrows, StandsAt};

use crate::error::EmitError;
use pc_machine::{Tree, TreeList};
use std::alloc::AllocError;

/// The rows of regions, and those of copies, which will stand after them all, from row `base` on.
#[derive(Drop)]
pub(crate) struct Output {
    pub(crate) rows: TreeList,
    pub(crate) copies: Vec<Tree>,
    pub(crate) base: u32,
}

impl Output {
    /// Appends a row to those of regions.
    #[tactic(auto, using(crate::proofs::Outputs::outputs))]
    pub(crate) fn push_row(&mut self, row: Tree) -> Result<(), EmitError>
        ensures grows { OnOk result (OutputGrows self.old self.new) }
        ensures copies { OnOk result (self.new.copies.items ≡ self.old.copies.items) }
        ensures rows { OnOk result (rows_of self.new.rows ≡ rows_of self.old.rows ++ row_of row ∷ []) }
        ensures count { OnOk result (length self.new.rows ≡ length self.old.rows + 1) }
        ensures stands { OnOk result (StandsAt self.new (length self.old.rows) (row_of row)) }
    {
        self.rows.push(row)?;
        Ok(())
    }

    /// Appends a row to those of copies, and returns the number that it will have.
    #[tactic(auto, using(crate::proofs::Outputs::outputs))]
    pub(crate) fn push_copies(&mut self, row: Tree) -> Result<u32, EmitError>
        ensures grows { OnOk result (OutputGrows self.old self.new) }
        ensures rows { OnOk result (self.new.rows ≡ self.old.rows) }
        ensures copies { OnOk result (rows_of self.new.copies.items ≡ rows_of self.old.copies.items ++ row_of row ∷ []) }
        ensures number { IfOk result (λ at. at ≡ self.old.base + length self.old.copies.items) }
        ensures stands { IfOk result (λ at. StandsAt self.new at (row_of row)) }
    {
        let Some(at) = number_of(self.base, self.copies.len()) else {
            return Err(EmitError::Memory);
        };
        match self.copies.push(row) {
            Ok(()) => Ok(at),
            Err(error) => Err(AllocError::from(error).into()),
        }
    }

    /// All rows.
    pub(crate) fn all(self) -> Result<TreeList, EmitError>
        ensures { IfOk result (λ rows. rows_of rows ≡ rows_of self.rows ++ rows_of self.copies.items) }
    {
        let Output {
            mut rows,
            copies,
            ..
        } = self;
        for row in copies {
            rows.push(row)?;
        }
        Ok(rows)
    }
}

/// A row's number, if it has one: it stands so many rows after this one.
fn number_of(base: u32, behind: usize) -> Option<u32>
    ensures { IfSome result (λ at. at ≡ base + behind) }
{
    let Ok(behind) = u32::try_from(behind) else {
        return None;
    };
    base.checked_add(behind)
}
