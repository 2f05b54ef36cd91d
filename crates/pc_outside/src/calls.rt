//! The calls of an object in memory: how many there were, and which are to fail.
ghost use Rattle.std.specs.Prelude.{◌≡◌};
ghost use Rattle.pc_word.specs.Count.{one_more};
ghost use Rattle.pc_outside.specs.InMemory.{next_is_listed};

use crate::CallList;

/// A counter of calls, and the numbers of those that are to fail.
#[derive(Drop)]
pub(crate) struct Calls {
    pub(crate) count: u64,
    pub(crate) failing: CallList,
}

impl Calls {
    /// No call so far.
    pub(crate) fn new(failing: CallList) -> Calls
        ensures count { result.count ≡ 0 }
        ensures failing { result.failing ≡ failing }
    {
        Calls { count: 0, failing }
    }

    /// Counts a call, and says whether it is to fail.
    pub(crate) fn next_fails(&mut self) -> bool
        ensures fails { result ≡ next_is_listed self.old.failing self.old.count }
        ensures counted { self.new ≡ record self.old { count = one_more self.old.count } }
    {
        self.count = self.count.saturating_add(1);
        self.failing.as_slice().contains(&self.count)
    }
}
