//! Intervals that are narrowed by a test.
ghost use Rattle.std.specs.Prelude.{◌≡◌, true};
ghost use Rattle.pc_ranges.specs.models.Narrowing.{meet, at_most, at_least, below, above, from_zero, narrowed_left, narrowed_right, tested};

use crate::interval::Interval;
use pc_word::OpCode;

/// The numbers of both intervals.
fn meet(a: Interval, b: Interval) -> Interval
    ensures { result ≡ meet a b }
{
    Interval {
        low: a.low.max(b.low),
        high: a.high.min(b.high),
    }
}

/// The numbers that are at most as great as some number of an interval.
fn at_most(b: Interval) -> Interval
    ensures { result ≡ at_most b }
{
    Interval {
        low: i32::MIN,
        high: b.high,
    }
}

/// Those that are at least as great.
fn at_least(b: Interval) -> Interval
    ensures { result ≡ at_least b }
{
    Interval {
        low: b.low,
        high: i32::MAX,
    }
}

/// Those that are less.
fn below(b: Interval) -> Interval
    ensures { result ≡ below b }
{
    let high = if i32::MIN < b.high && b.high < i32::MAX {
        b.high - 1
    } else {
        i32::MAX
    };
    Interval {
        low: i32::MIN,
        high,
    }
}

/// Those that are greater.
fn above(b: Interval) -> Interval
    ensures { result ≡ above b }
{
    let low = if i32::MIN < b.low && b.low < i32::MAX {
        b.low + 1
    } else {
        i32::MIN
    };
    Interval {
        low,
        high: i32::MAX,
    }
}

/// The numbers from 0 up that are in an interval.
fn from_zero(a: Interval) -> Interval
    ensures { result ≡ meet a from_zero }
{
    meet(
        a,
        Interval {
            low: 0,
            high: i32::MAX,
        },
    )
}

/// The left operand of a comparison that holds, or does not.
pub(crate) fn narrowed_left(op: OpCode, side: bool, a: Interval, b: Interval) -> Interval
    ensures { result ≡ narrowed_left op side a b }
{
    match (op, side) {
        (OpCode::Less, true) => meet(a, below(b)),
        (OpCode::Less, false) => meet(a, at_least(b)),
        (OpCode::LessEq, true) => meet(a, at_most(b)),
        (OpCode::LessEq, false) => meet(a, above(b)),
        (OpCode::Equal, true) => meet(a, b),
        (OpCode::Unequal, false) => meet(a, b),
        (OpCode::Below, true) => {
            if b.is_from_zero() {
                from_zero(meet(a, below(b)))
            } else {
                a
            }
        }
        _ => a,
    }
}

/// The right one.
pub(crate) fn narrowed_right(op: OpCode, side: bool, a: Interval, b: Interval) -> Interval
    ensures { result ≡ narrowed_right op side a b }
{
    match (op, side) {
        (OpCode::Less, true) => meet(b, above(a)),
        (OpCode::Less, false) => meet(b, at_most(a)),
        (OpCode::LessEq, true) => meet(b, at_least(a)),
        (OpCode::LessEq, false) => meet(b, below(a)),
        (OpCode::Equal, true) => meet(b, a),
        (OpCode::Unequal, false) => meet(b, a),
        _ => b,
    }
}

/// An operand that is tested: it loses 0 on the side where it holds, and is 0 on the other.
pub(crate) fn tested(side: bool, a: Interval) -> Interval
    ensures { result ≡ tested side a }
{
    if side {
        without_zero(a)
    } else {
        meet(a, Interval { low: 0, high: 0 })
    }
}

/// An interval without 0, where that is one of its ends.
fn without_zero(a: Interval) -> Interval
    ensures { result ≡ tested true a }
{
    Interval {
        low: if a.low == 0 { 1 } else { a.low },
        high: if a.high == 0 { -1 } else { a.high },
    }
}
