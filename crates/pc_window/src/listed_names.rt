//! Names in a list, each once.
ghost use Rattle.std.specs.Prelude.{◌≡◌, [], IfOk, OnOk};
ghost use Rattle.pc_window.specs.Rebasing.{is_in};
ghost use Rattle.pc_window.specs.models.Listing.{and_name};

use crate::NumberList;
use std::alloc::{AllocError, Global};
use std::marker::Model;

/// Names in the order in which they came, each once, and marks by name that tell which are there.
///
/// Contracts see the list alone.
#[derive(Debug, Drop)]
pub(crate) struct ListedNames {
    names: NumberList,
    listed: Vec<bool>,
}

impl Model for ListedNames {
    ghost use Rattle.std.specs.Prelude.{ℕ, List};
    ghost use Rattle.pc_window.specs.models.Listing.{AreMarked};

    ghost Value = { List ℕ };

    ghost view = { λ it. it.names };

    ghost invariant = { λ it. AreMarked it.names it.listed.items };
}

impl ListedNames {
    /// No name yet, with marks for the names below a number.
    #[tactic(auto, using(crate::proofs::MarkedNames::marks))]
    pub(crate) fn new(alloc: Global, count: usize) -> Result<ListedNames, AllocError>
        ensures { IfOk result (λ it. it ≡ []) }
    {
        let listed = vec![in alloc; false; count]?;
        Ok(ListedNames {
            names: NumberList::new(alloc),
            listed,
        })
    }

    /// Puts a name behind the others, where it is not among them.
    #[tactic(auto, using(crate::proofs::MarkedNames::marks))]
    pub(crate) fn add(&mut self, name: u32) -> Result<(), AllocError>
        ensures { OnOk result (self.new ≡ and_name self.old name) }
    {
        if self.has(name) {
            return Ok(());
        }
        self.names.push(name)?;
        let place = name as usize;
        if place < self.listed.len() {
            self.listed[place] = true;
        }
        Ok(())
    }

    /// Whether a name is there. One that has no mark is looked up in the list.
    #[tactic(auto, using(crate::proofs::MarkedNames::marks))]
    fn has(&self, name: u32) -> bool
        ensures { result ≡ is_in name self.now }
    {
        match self.listed.get(name as usize) {
            Some(mark) => *mark,
            None => is_in(self.names.as_slice(), name),
        }
    }

    /// The names, in their order.
    pub(crate) fn into_names(self) -> NumberList
        ensures { result ≡ self }
    {
        self.names
    }
}

/// Whether a number is in a list.
pub fn is_in(numbers: &[u32], number: u32) -> bool
    ensures { result ≡ is_in number numbers.now }
{
    numbers.contains(&number)
}
