//! The numbers of nodes: each gets the next one when it is first met.
ghost use Rattle.std.specs.Prelude.{◌≡◌, ◌<◌, ◌≤◌, None, length, replicate, slice_get, IfOk};
ghost use Rattle.pc_word.specs.SourceLimits.{most_nodes};
ghost use Rattle.pc_regions.specs.models.Numbered.{IsNumbered, nothing_met, Meets};

use pc_word::Seq;
use std::alloc::{AllocError, Global};
use std::marker::Model;

/// The nodes that were met, in the order in which they were met, and the number that each of them has there.
#[derive(Debug, Drop)]
pub(crate) struct Numbering {
    numbers: Seq<Option<u32>>,
    order: Seq<u32>,
}

impl Model for Numbering {
    ghost use Rattle.std.specs.Coded.{codes};
    ghost use Rattle.pc_regions.specs.models.Numbered.{Numbered, IsNumbered};

    ghost Value = { Numbered };

    ghost coded = { Prim.hlevel codes };

    ghost view = { λ it. record { numbers = it.numbers; order = it.order } };

    ghost invariant = { λ it. IsNumbered (record { numbers = it.numbers; order = it.order }) };
}

impl Numbering {
    /// No node of so many was met.
    pub(crate) fn new(alloc: Global, count: u32) -> Result<Numbering, AllocError>
        requires { count ≤ most_nodes }
        ensures { IfOk result (λ it. it ≡ nothing_met count) }
    {
        let numbers = no_numbers(alloc, count)?;
        Ok(Numbering {
            numbers,
            order: Seq::new(alloc),
        })
    }

    /// The node of a number, where there is one. It also tells what every numbering keeps.
    pub(crate) fn node(&self, number: usize) -> Option<u32>
        ensures node { result ≡ slice_get self.now.order number }
        ensures kept { IsNumbered self.now }
    {
        self.order.get(number).copied()
    }

    /// The number of a node, which is the next one where the node was not met before.
    pub(crate) fn number(&mut self, node: u32) -> Result<u32, AllocError>
        requires { node < length self.old.numbers }
        ensures met { IfOk result (λ number. Meets self.old self.new node number) }
    {
        if let Some(number) = self.numbers.as_slice()[node as usize] {
            return Ok(number);
        }
        let number = self.order.len() as u32;
        self.order.push(node)?;
        self.numbers.set(node as usize, Some(number));
        Ok(number)
    }

    /// The nodes that were met, in order.
    pub(crate) fn into_order(self) -> Seq<u32>
        ensures { result ≡ self.order }
    {
        self.order
    }
}

/// So many nodes without a number.
fn no_numbers(alloc: Global, count: u32) -> Result<Seq<Option<u32>>, AllocError>
    ensures { IfOk result (λ numbers. numbers ≡ replicate count None) }
{
    let items = vec![in alloc; None; count as usize]?;
    Ok(Seq::from_vec(items))
}
