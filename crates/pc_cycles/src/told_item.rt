//! Items on the path through a row, with what is told of each.
ghost use Rattle.std.specs.Prelude.{◌≡◌};
ghost use Rattle.std.specs.List.{list_any};
ghost use Rattle.std.specs.Option.{option_copied};
ghost use Rattle.pc_cycles.specs.Chains.{takes_up, brings, is_met, is_of, waits_otherwise, keeps_all, has_waiting};

use crate::carrier::Carrier;
use pc_waiting::{Obstacle, Waiting, WaitingList};
use pc_word::Item;

/// An item of a row, and what is told of it.
#[derive(Clone, Copy, Debug)]
pub struct ToldItem {
    /// Its iteration, counted from the state's own first one.
    pub iteration: u32,
    /// Its origin, the number of a node of the flow graph.
    pub origin: u32,
    /// The item, with the automaton's names.
    pub item: Item,
}

impl ToldItem {
    /// Whether it takes a carrier up: it reads the name, or is the item that waits.
    pub(crate) fn takes_up(self, carrier: Carrier) -> bool
        ensures { result ≡ takes_up self carrier }
    {
        match carrier {
            Carrier::Value { name } => self.item.reads(name),
            Carrier::Waiting { iteration, origin } => {
                self.iteration == iteration && self.origin == origin
            }
        }
    }

    /// Whether it brings a carrier, where this waits behind its row: it writes the name, or keeps the item that waits.
    pub(crate) fn brings(self, entries: Option<&WaitingList>, carrier: Carrier) -> bool
        ensures { result ≡ brings (option_copied entries.entry) self carrier }
    {
        match carrier {
            Carrier::Value { name } => self.item.writes(name),
            Carrier::Waiting { iteration, origin } => self.has_waiting(iteration, origin, entries),
        }
    }

    /// Whether it is the item that an obstacle names as one which may not be passed.
    pub(crate) fn is_met(self, obstacle: Obstacle) -> bool
        ensures { result ≡ is_met self obstacle }
    {
        match obstacle {
            Obstacle::Meets { iteration, origin } => {
                self.iteration == iteration && self.origin == origin
            }
            Obstacle::Needs { .. } => false,
            Obstacle::Undecided { .. } => false,
            Obstacle::NoRoom { .. } => false,
        }
    }

    /// Whether an entry is of this iteration and origin, and does not wait because it may not pass the item.
    fn waits_otherwise(self, iteration: u32, origin: u32, entry: Waiting) -> bool
        ensures { result ≡ waits_otherwise self iteration origin entry }
    {
        is_of(iteration, origin, entry) && !self.is_met(entry.obstacle)
    }

    /// Whether some entries, if there are any, tell that what is of this iteration and origin waits because it may not pass the
    /// item, on whichever side of a test it stands.
    fn has_waiting(self, iteration: u32, origin: u32, entries: Option<&WaitingList>) -> bool
        ensures { result ≡ has_waiting self iteration origin (option_copied entries.entry) }
    {
        match entries {
            Some(entries) => self.keeps_all(iteration, origin, entries.as_slice()),
            None => false,
        }
    }

    /// Whether one of some entries is of this iteration and origin, and all that are wait because they may not pass the item.
    fn keeps_all(self, iteration: u32, origin: u32, entries: &[Waiting]) -> bool
        ensures { result ≡ keeps_all self iteration origin entries.now }
    {
        some_is_of(iteration, origin, entries)
            && !self.some_waits_otherwise(iteration, origin, entries)
    }

    /// Whether one of some entries is of this iteration and origin, and does not wait because it may not pass the item.
    fn some_waits_otherwise(self, iteration: u32, origin: u32, entries: &[Waiting]) -> bool
        ensures { result ≡ list_any (waits_otherwise self iteration origin) entries.now }
    {
        entries
            .iter()
            .any(|entry| self.waits_otherwise(iteration, origin, *entry))
    }
}

/// Whether one of some entries is of this iteration and origin.
fn some_is_of(iteration: u32, origin: u32, entries: &[Waiting]) -> bool
    ensures { result ≡ list_any (is_of iteration origin) entries.now }
{
    entries.iter().any(|entry| is_of(iteration, origin, *entry))
}

/// Whether an entry is of this iteration and origin.
fn is_of(iteration: u32, origin: u32, entry: Waiting) -> bool
    ensures { result ≡ is_of iteration origin entry }
{
    entry.iteration == iteration && entry.origin == origin
}
