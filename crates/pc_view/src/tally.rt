//! How often the rows of a code ran, and their leaves were taken.
ghost use Rattle.std.specs.Prelude.{◌≡◌, ◌++◌, OnOk, option_map, slice_index_or, string_bytes};
ghost use Rattle.pc_view.specs.Tally.{cycle_words, row_share, taken_words, tallied, times_taken};

use crate::hundredths::{Hundredths, part_of};
use pc_word::Seq;
use std::alloc::AllocError;

/// How often each row of a code ran, and each of its leaves was taken.
#[derive(Clone, Copy, Debug)]
pub struct Tally<'a> {
    /// How many cycles the run took.
    pub cycles: u64,
    /// For each row, how many cycles began in it.
    pub rows: &'a [u64],
    /// For each row, how many cycles left it by each of its leaves, in preorder.
    pub leaves: &'a [Seq<u64>],
}

impl Tally<'_> {
    ghost use Rattle.std.specs.Prelude.{◌≡◌, slice_index_or};
    ghost use Rattle.pc_view.specs.Tally.{row_share, tallied, times_taken};

    /// How many cycles began in a row.
    fn times(&self, number: usize) -> u64
        ensures { result ≡ slice_index_or self.now.rows.now number 0 }
    {
        count_at(self.rows, number)
    }

    /// How many cycles left a row by a leaf.
    pub(crate) fn times_taken(&self, number: usize, leaf: usize) -> u64
        ensures { result ≡ times_taken (tallied self.now) number leaf }
    {
        match self.leaves.get(number) {
            Some(counts) => count_at(counts.as_slice(), leaf),
            None => 0,
        }
    }

    /// What part of the cycles ran a row.
    pub(crate) fn row_share(&self, number: usize) -> Hundredths
        ensures { result.count ≡ row_share (tallied self.now) number }
    {
        part_of(100, self.times(number), self.cycles)
    }
}

/// Appends how often a row ran to a text, where that is told.
pub(crate) fn push_cycles(
    text: &mut String,
    told: Option<Tally>,
    number: usize,
) -> Result<(), AllocError>
    ensures { OnOk result (string_bytes text.new ≡ string_bytes text.old ++ cycle_words (option_map tallied told.entry) number) }
{
    match told {
        Some(tally) => {
            let times = tally.times(number);
            write!(text, "; cycles: {times}")
        }
        None => Ok(()),
    }
}

/// Appends how often a leaf was taken to a text, where that is told.
pub(crate) fn push_taken(
    text: &mut String,
    told: Option<Tally>,
    number: usize,
    leaf: usize,
) -> Result<(), AllocError>
    ensures { OnOk result (string_bytes text.new ≡ string_bytes text.old ++ taken_words (option_map tallied told.entry) number leaf) }
{
    match told {
        Some(tally) => {
            let times = tally.times_taken(number, leaf);
            write!(text, "; taken: {times}")
        }
        None => Ok(()),
    }
}

/// A count by its place, or 0.
pub(crate) fn count_at(counts: &[u64], place: usize) -> u64
    ensures { result ≡ slice_index_or counts.now place 0 }
{
    counts.get(place).copied().unwrap_or(0)
}
