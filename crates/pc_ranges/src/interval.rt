//! Intervals of words.
ghost use Rattle.std.specs.Prelude.{◌≡◌};
ghost use Rattle.pc_ranges.specs.Interval.{all_words, exactly, is_bounded, is_single, is_zero, lacks_zero, interval_of, operand_interval};
ghost use Rattle.pc_ranges.specs.Over.{is_less, is_at_most, is_from_zero, is_small, is_positive};
ghost use Rattle.pc_ranges.specs.models.Keeping.{has_zero, is_empty, is_inside};

use pc_word::Operand;

/// The words from `low` to `high`, by which a number is bounded: the least word bounds nothing from
/// below, the greatest nothing from above.
#[derive(Clone, Copy, Debug, PartialEq, Eq)]
pub(crate) struct Interval {
    pub low: i32,
    pub high: i32,
}

impl Interval {
    /// The interval in which every number lies.
    pub(crate) const ALL: Interval = Interval {
        low: i32::MIN,
        high: i32::MAX,
    };

    /// The interval in which none does, which is less than any other.
    pub(crate) const NONE: Interval = Interval {
        low: i32::MAX,
        high: i32::MIN,
    };

    /// The interval of one word.
    pub(crate) fn exactly(word: i32) -> Interval
        ensures { result ≡ exactly word }
    {
        Interval {
            low: word,
            high: word,
        }
    }

    /// Whether both ends bound.
    pub(crate) fn is_bounded(self) -> bool
        ensures { result ≡ is_bounded self }
    {
        i32::MIN < self.low && self.high < i32::MAX
    }

    /// Whether one number alone lies in it.
    pub(crate) fn is_single(self) -> bool
        ensures { result ≡ is_single self }
    {
        self.is_bounded() && self.low == self.high
    }

    /// Whether 0 alone lies in it.
    pub(crate) fn is_zero(self) -> bool
        ensures { result ≡ is_zero self }
    {
        self.low == 0 && self.high == 0
    }

    /// Whether 0 does not lie in it.
    pub(crate) fn lacks_zero(self) -> bool
        ensures { result ≡ lacks_zero self }
    {
        0 < self.low || self.high < 0
    }

    /// Whether 0 lies in it.
    pub(crate) fn has_zero(self) -> bool
        ensures { result ≡ has_zero self }
    {
        self.low <= 0 && 0 <= self.high
    }

    /// Whether no number lies in it.
    pub(crate) fn is_empty(self) -> bool
        ensures { result ≡ is_empty self }
    {
        self.high < self.low && (i32::MIN < self.low && self.high < i32::MAX)
    }

    /// Whether no number in it is negative.
    pub(crate) fn is_from_zero(self) -> bool
        ensures { result ≡ is_from_zero self }
    {
        0 <= self.low
    }

    /// Whether the numbers in it are words from 0 up.
    pub(crate) fn is_small(self) -> bool
        ensures { result ≡ is_small self }
    {
        self.is_from_zero() && self.is_bounded()
    }

    /// Whether they are words from 1 up.
    pub(crate) fn is_positive(self) -> bool
        ensures { result ≡ is_positive self }
    {
        0 < self.low && (0 < self.high && self.high < i32::MAX)
    }

    /// Whether each number in it lies in another one.
    pub(crate) fn is_inside(self, other: Interval) -> bool
        ensures { result ≡ is_inside self other }
    {
        other.low <= self.low && self.high <= other.high
    }

    /// Whether each number in it is less than each in another one.
    pub(crate) fn is_less(self, other: Interval) -> bool
        ensures { result ≡ is_less self other }
    {
        self.high < other.low && (self.high < i32::MAX && i32::MIN < other.low)
    }

    /// Whether it is at most as great.
    pub(crate) fn is_at_most(self, other: Interval) -> bool
        ensures { result ≡ is_at_most self other }
    {
        self.high <= other.low && (self.high < i32::MAX && i32::MIN < other.low)
    }
}

/// The interval of a variable.
pub(crate) fn interval_at(intervals: &[Interval], variable: usize) -> Interval
    ensures { result ≡ interval_of intervals.now variable }
{
    match intervals.get(variable) {
        Some(interval) => *interval,
        None => Interval::ALL,
    }
}

/// The interval of an operand.
pub(crate) fn operand_interval(intervals: &[Interval], operand: Operand) -> Interval
    ensures { result ≡ operand_interval intervals.now operand }
{
    match operand {
        Operand::Name(variable) => interval_at(intervals, variable as usize),
        Operand::Lit(word) => Interval::exactly(word),
    }
}
