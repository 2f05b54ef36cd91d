//! A count of faults, and beside it the name of the last.
ghost use Rattle.std.specs.Prelude.{◌≡◌, ◌≤◌, []};
ghost use Rattle.pc_word.specs.Count.{one_more};

use std::alloc::Global;
use std::marker::Model;

/// How many calls failed, and the name that the last of them was given.
#[derive(Drop)]
pub(crate) struct NamedFaults {
    count: u64,
    name: String,
}

impl Model for NamedFaults {
    ghost use Rattle.std.specs.Prelude.{string_bytes};
    ghost use Rattle.pc_outside.specs.models.Parts.{Faults};

    ghost Value = { Faults };

    ghost view = { λ a. record { count = a.count; name = string_bytes a.name } };
}

impl NamedFaults {
    ghost use Rattle.std.specs.Prelude.{string_bytes};

    /// No fault so far.
    pub(crate) fn new(alloc: Global) -> NamedFaults
        ensures { result ≡ record { count = 0; name = [] } }
    {
        NamedFaults {
            count: 0,
            name: String::new(alloc),
        }
    }

    /// Counts a fault of the call that was given this name.
    pub(crate) fn add(&mut self, name: String)
        ensures more { self.new ≡ record { count = one_more self.old.count; name = string_bytes name } }
        ensures counted { self.old.count ≤ self.new.count }
    {
        self.count = self.count.saturating_add(1);
        self.name = name;
    }
}
