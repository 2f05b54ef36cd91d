//! Numbers with two decimals, and shares.
ghost use Rattle.std.specs.Prelude.{◌≡◌, Some};
ghost use Rattle.pc_view.specs.Tally.{hundredths_words, part_of};

use std::fmt;

/// A number of hundredths, which is written with its two decimals.
#[derive(Clone, Copy, Debug, PartialEq, Eq)]
pub struct Hundredths {
    pub count: u128,
}

impl fmt::Display for Hundredths {
    ghost output = { λ it. Some (hundredths_words it.count) };

    #[tactic(auto, unfolding(crate::specs::Tally::hundredths_words))]
    fn fmt<W: fmt::Write>(&self, f: &mut fmt::Formatter<W>) -> fmt::Result {
        let count = self.count;
        let (whole, tenths, last) = (count / 100, count / 10 % 10, count % 10);
        write!(f, "{whole}.{tenths}{last}")
    }
}

/// What part some things are of all, in so many parts of the whole, cut off: 0 of nothing.
pub fn part_of(whole: u32, some: u64, all: u64) -> Hundredths
    ensures { result.count ≡ part_of whole some all }
{
    let count = if all == 0 {
        0
    } else {
        u128::from(some) * u128::from(whole) / u128::from(all)
    };
    Hundredths { count }
}
