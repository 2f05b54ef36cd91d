//! The operators of the language on words, the numbers from -2147483648 to 2147483647.
//!
//! Each is total: sums, differences and products wrap modulo 2^32, a shift count is taken modulo
//! 32, and what is divided by 0 is 0. None takes memory.
ghost use Rattle.std.specs.Prelude.{◌≡◌};
ghost use Rattle.pc_word.specs.Word.{word_add, word_sub, word_mul, word_div, word_rem, word_shl, word_shr, word_and, word_or, word_xor, word_less};
ghost use Rattle.pc_word.specs.Word.{word_less_eq, word_equal, word_unequal, word_below, word_apply};

use crate::item::OpCode;

/// The sum, wrapped.
#[tactic(auto, using(std::proofs::lemmas::Int::wraps), unfolding(crate::specs::Word::word_add))]
pub fn add(a: i32, b: i32) -> i32
    ensures { result ≡ word_add a b }
{
    a.wrapping_add(b)
}

/// The difference, wrapped.
#[tactic(auto, using(std::proofs::lemmas::Int::wraps), unfolding(crate::specs::Word::word_sub))]
pub fn sub(a: i32, b: i32) -> i32
    ensures { result ≡ word_sub a b }
{
    a.wrapping_sub(b)
}

/// The product, wrapped.
#[tactic(auto, using(std::proofs::lemmas::Int::wraps), unfolding(crate::specs::Word::word_mul))]
pub fn mul(a: i32, b: i32) -> i32
    ensures { result ≡ word_mul a b }
{
    a.wrapping_mul(b)
}

/// The quotient, truncated towards zero and wrapped (C17 6.5.5, but for the wrap); 0 where `b` is 0.
#[tactic(auto, unfolding(crate::specs::Word::word_div))]
pub fn div(a: i32, b: i32) -> i32
    ensures { result ≡ word_div a b }
{
    if b == 0 { 0 } else { a.wrapping_div(b) }
}

/// The remainder, with the sign of `a` (C17 6.5.5); 0 where `b` is 0 and where `b` is -1.
#[tactic(auto, unfolding(crate::specs::Word::word_rem))]
pub fn rem(a: i32, b: i32) -> i32
    ensures { result ≡ word_rem a b }
{
    if b == 0 { 0 } else { a.wrapping_rem(b) }
}

/// The left shift by `b` modulo 32, wrapped.
#[tactic(auto)]
pub fn shl(a: i32, b: i32) -> i32
    ensures { result ≡ word_shl a b }
{
    a.wrapping_shl(b.cast_unsigned())
}

/// The right shift by `b` modulo 32, which copies the sign.
#[tactic(auto, unfolding(crate::specs::Word::word_shr))]
pub fn shr(a: i32, b: i32) -> i32
    ensures { result ≡ word_shr a b }
{
    a.wrapping_shr(b.cast_unsigned())
}

/// The bits that both have.
#[tactic(auto, unfolding(crate::specs::Word::word_and))]
pub fn and(a: i32, b: i32) -> i32
    ensures { result ≡ word_and a b }
{
    a & b
}

/// The bits that either has.
#[tactic(auto, unfolding(crate::specs::Word::word_or))]
pub fn or(a: i32, b: i32) -> i32
    ensures { result ≡ word_or a b }
{
    a | b
}

/// The bits that one alone has.
#[tactic(auto, unfolding(crate::specs::Word::word_xor))]
pub fn xor(a: i32, b: i32) -> i32
    ensures { result ≡ word_xor a b }
{
    a ^ b
}

/// 1 where `a` is less than `b`, and else 0.
#[tactic(auto, unfolding(crate::specs::Word::word_less))]
pub fn less(a: i32, b: i32) -> i32
    ensures { result ≡ word_less a b }
{
    i32::from(a < b)
}

/// 1 where `a` is at most `b`, and else 0.
#[tactic(auto, unfolding(crate::specs::Word::word_less_eq))]
pub fn less_eq(a: i32, b: i32) -> i32
    ensures { result ≡ word_less_eq a b }
{
    i32::from(a <= b)
}

/// 1 where both are the same word, and else 0.
#[tactic(auto, unfolding(crate::specs::Word::word_equal))]
pub fn equal(a: i32, b: i32) -> i32
    ensures { result ≡ word_equal a b }
{
    i32::from(a == b)
}

/// 1 where they are different words, and else 0.
#[tactic(auto, unfolding(crate::specs::Word::word_unequal))]
pub fn unequal(a: i32, b: i32) -> i32
    ensures { result ≡ word_unequal a b }
{
    i32::from(a != b)
}

/// 1 where `a` is less than `b` as numbers modulo 2^32 from 0 to 4294967295, and else 0.
#[tactic(auto, unfolding(crate::specs::Word::word_below))]
pub fn below(a: i32, b: i32) -> i32
    ensures { result ≡ word_below a b }
{
    i32::from(a.cast_unsigned() < b.cast_unsigned())
}

/// What the operator that `op` names gives.
pub fn apply(op: OpCode, a: i32, b: i32) -> i32
    ensures { result ≡ word_apply op a b }
{
    match op {
        OpCode::Add => add(a, b),
        OpCode::Sub => sub(a, b),
        OpCode::Mul => mul(a, b),
        OpCode::Div => div(a, b),
        OpCode::Rem => rem(a, b),
        OpCode::Shl => shl(a, b),
        OpCode::Shr => shr(a, b),
        OpCode::And => and(a, b),
        OpCode::Or => or(a, b),
        OpCode::Xor => xor(a, b),
        OpCode::Less => less(a, b),
        OpCode::LessEq => less_eq(a, b),
        OpCode::Equal => equal(a, b),
        OpCode::Unequal => unequal(a, b),
        OpCode::Below => below(a, b),
    }
}
