//! The front of a window as a row.
ghost use Rattle.std.specs.Prelude.{◌≡◌, IfOk};
ghost use Rattle.pc_word.specs.StoredRow.{row_in};
ghost use Rattle.pc_window.specs.Steps.{front_row};
ghost use Rattle.pc_window.specs.StoredWindow.{front_in};

use crate::tree::WindowTree;
use pc_word::RowTree;
use std::alloc::{AllocError, Global};

impl WindowTree {
    /// The items and tests of the root node as a row, with nothing at its leaves. It takes time and memory in proportion
    /// to the row.
    pub fn front_row(&self, alloc: Global) -> Result<RowTree<()>, AllocError>
        ensures { IfOk result (λ row. row_in (λ leaf. leaf) row ≡ front_row (λ rest. tt) (front_in self.now)) }
    {
        match self {
            WindowTree::Step { item, rest, .. } => {
                let next = rest.front_row(alloc)?;
                let next = Box::new(alloc, next)?;
                Ok(RowTree::Step { item: *item, next })
            }
            WindowTree::Test { on, yes, no, .. } => {
                let yes = yes.front_row(alloc)?;
                let no = no.front_row(alloc)?;
                let yes = Box::new(alloc, yes)?;
                let no = Box::new(alloc, no)?;
                Ok(RowTree::Test { on: *on, yes, no })
            }
            WindowTree::Node { .. }
            | WindowTree::Exit { .. }
            | WindowTree::Stop
            | WindowTree::Trap { .. } => Ok(RowTree::Leaf { leaf: () }),
        }
    }
}
