//! What operators give of intervals.
ghost use Rattle.std.specs.Prelude.{◌≡◌, pos, true, ◌+ℤ◌, ◌-ℤ◌, ◌&&◌, ◌||◌, if◌then◌else◌};
ghost use Rattle.pc_ranges.specs.Interval.{all_words, is_bounded};
ghost use Rattle.pc_ranges.specs.models.Narrowing.{span_if};
ghost use Rattle.pc_ranges.specs.Over.{truth, is_less, is_at_most, is_positive, sum, difference, up_to, product, quotient, remainder, shifted, masked, over};

use crate::interval::Interval;
use pc_word::OpCode;

/// The interval of what an operator gives of the numbers of two intervals.
pub(crate) fn over(op: OpCode, a: Interval, b: Interval) -> Interval
    ensures { result ≡ over op a b }
{
    match op {
        OpCode::Add => sum(a, b),
        OpCode::Sub => difference(a, b),
        OpCode::Less => truth(a.is_less(b), b.is_at_most(a)),
        OpCode::LessEq => truth(a.is_at_most(b), b.is_less(a)),
        OpCode::Equal => truth(is_same(a, b), is_apart(a, b)),
        OpCode::Unequal => truth(is_apart(a, b), is_same(a, b)),
        OpCode::Below => truth(
            a.is_from_zero() && a.is_less(b),
            b.is_from_zero() && b.is_at_most(a),
        ),
        OpCode::Mul => product(a, b),
        OpCode::Div => quotient(a, b),
        OpCode::Rem => remainder(a, b),
        OpCode::Shr => shifted(a),
        OpCode::And => masked(a, b),
        OpCode::Shl | OpCode::Or | OpCode::Xor => Interval::ALL,
    }
}

/// Whether two intervals have the same single number.
fn is_same(a: Interval, b: Interval) -> bool
    ensures { result ≡ (is_at_most a b && is_at_most b a) }
{
    a.is_at_most(b) && b.is_at_most(a)
}

/// Whether no number lies in both.
fn is_apart(a: Interval, b: Interval) -> bool
    ensures { result ≡ (is_less a b || is_less b a) }
{
    a.is_less(b) || b.is_less(a)
}

/// The interval of a comparison that surely holds, or never does.
fn truth(surely: bool, never: bool) -> Interval
    ensures { result ≡ truth surely never }
{
    if surely {
        Interval::exactly(1)
    } else if never {
        Interval::exactly(0)
    } else {
        Interval { low: 0, high: 1 }
    }
}

/// The interval of sums.
#[tactic(auto)]
fn sum(a: Interval, b: Interval) -> Interval
    ensures { result ≡ sum a b }
{
    if a.is_bounded() && b.is_bounded() {
        span(a.low.checked_add(b.low), a.high.checked_add(b.high))
    } else {
        Interval::ALL
    }
}

/// The interval of differences.
#[tactic(auto)]
fn difference(a: Interval, b: Interval) -> Interval
    ensures { result ≡ difference a b }
{
    if a.is_bounded() && b.is_bounded() {
        span(a.low.checked_sub(b.high), a.high.checked_sub(b.low))
    } else {
        Interval::ALL
    }
}

/// The interval from 0 to a word.
fn up_to(high: i32) -> Interval
    ensures { result ≡ up_to high }
{
    Interval { low: 0, high }
}

/// The interval of products of words from 0 up.
fn product(a: Interval, b: Interval) -> Interval
    ensures { result ≡ product a b }
{
    if a.is_small() && b.is_small() {
        span(a.low.checked_mul(b.low), a.high.checked_mul(b.high))
    } else {
        Interval::ALL
    }
}

/// The interval of quotients of words from 0 up.
fn quotient(a: Interval, b: Interval) -> Interval
    ensures { result ≡ quotient a b }
{
    if a.is_small() && b.is_from_zero() {
        up_to(a.high)
    } else {
        Interval::ALL
    }
}

/// The interval of remainders of numbers from 0 up.
fn remainder(a: Interval, b: Interval) -> Interval
    ensures { result ≡ remainder a b }
{
    if a.is_from_zero() && b.is_positive() {
        up_to(less_one(b))
    } else {
        Interval::ALL
    }
}

/// The word before the high end of an interval of words from 1 up.
fn less_one(b: Interval) -> i32
    requires { is_positive b ≡ true }
    ensures { result ≡ b.high -ℤ pos 1 }
{
    b.high - 1
}

/// The interval of numbers from 0 up that are shifted to the right.
fn shifted(a: Interval) -> Interval
    ensures { result ≡ shifted a }
{
    if a.is_from_zero() {
        up_to(a.high)
    } else {
        Interval::ALL
    }
}

/// The interval of the bits that a word from 0 up has with another one.
fn masked(a: Interval, b: Interval) -> Interval
    ensures { result ≡ masked a b }
{
    if a.is_small() {
        up_to(a.high)
    } else if b.is_small() {
        up_to(b.high)
    } else {
        Interval::ALL
    }
}

/// The interval between two words; all words where an end is none.
fn span(low: Option<i32>, high: Option<i32>) -> Interval
    ensures { result ≡ span_if low high }
{
    match (low, high) {
        (Some(low), Some(high)) => Interval { low, high },
        _ => Interval::ALL,
    }
}
