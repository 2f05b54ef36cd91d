//! What each pass counts of its own work.
ghost use Rattle.std.specs.Prelude.{◌≡◌, ◌≤◌};
ghost use Rattle.pc_word.specs.Count.{one_more};
ghost use Rattle.pc_scalar.specs.Tally.{counted};

/// How many nodes a pass has changed or skipped, and how often it came to its end. Both stand still at the type's end.
#[derive(Clone, Copy, Debug, PartialEq, Eq)]
pub struct Tally {
    pub changes: u64,
    pub runs: u64,
}

impl Tally {
    /// Nothing was counted yet.
    pub fn new() -> Tally
        ensures { result ≡ record { changes = 0; runs = 0 } }
    {
        Tally {
            changes: 0,
            runs: 0,
        }
    }

    /// Counts a run that changed so many nodes.
    pub fn add(&mut self, nodes: u32)
        ensures changes { self.new.changes ≡ counted self.old.changes nodes }
        ensures runs { self.new.runs ≡ one_more self.old.runs }
        ensures no_change_lost { self.old.changes ≤ self.new.changes }
        ensures no_run_lost { self.old.runs ≤ self.new.runs }
    {
        self.changes = self.changes.saturating_add(u64::from(nodes));
        self.runs = self.runs.saturating_add(1);
    }
}
