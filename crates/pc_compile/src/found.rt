//! The regions that were found.
ghost use Rattle.std.specs.Prelude.{◌≡◌, ◌<◌, [], ◌∷◌, false, length, replicate, slice_get, IfOk, OnOk};
ghost use Rattle.pc_compile.specs.models.Marked.{IsMarked, none_found, Finds};

use pc_word::Seq;
use std::alloc::{AllocError, Global};
use std::marker::Model;

/// The regions that were found, each once, in the order in which they were found, and a mark for each
/// region that says whether it is among them.
#[derive(Debug, Drop)]
pub(crate) struct Found {
    marks: Seq<bool>,
    order: Seq<u32>,
}

impl Model for Found {
    ghost use Rattle.std.specs.Coded.{codes};
    ghost use Rattle.pc_compile.specs.models.Marked.{Marked, IsMarked};

    ghost Value = { Marked };

    ghost coded = { Prim.hlevel codes };

    ghost view = { λ it. record { marks = it.marks; order = it.order } };

    ghost invariant = { λ it. IsMarked (record { marks = it.marks; order = it.order }) };
}

impl Found {
    /// None of so many regions was found.
    pub(crate) fn new(alloc: Global, count: usize) -> Result<Found, AllocError>
        ensures { IfOk result (λ it. it ≡ none_found count) }
    {
        let marks = no_marks(alloc, count)?;
        Ok(Found {
            marks,
            order: Seq::new(alloc),
        })
    }

    /// The region that was found at a place, where there is one. It also tells what is kept.
    pub(crate) fn region(&self, at: usize) -> Option<u32>
        ensures region { result ≡ slice_get self.now.order at }
        ensures kept { IsMarked self.now }
    {
        self.order.get(at).copied()
    }

    /// Finds a region, which comes after the others if it was not found before.
    pub(crate) fn find(&mut self, region: u32) -> Result<(), AllocError>
        requires { region < length self.old.marks }
        ensures { OnOk result (Finds (region ∷ []) self.old self.new) }
    {
        if self.marks.as_slice()[region as usize] {
            return Ok(());
        }
        self.order.push(region)?;
        self.marks.set(region as usize, true);
        Ok(())
    }
}

/// So many regions without a mark.
fn no_marks(alloc: Global, count: usize) -> Result<Seq<bool>, AllocError>
    ensures { IfOk result (λ marks. marks ≡ replicate count false) }
{
    let items = vec![in alloc; false; count]?;
    Ok(Seq::from_vec(items))
}
