//! The readers of the parts of an entry.

ghost use Rattle.std.specs.Prelude.{◌≡◌, length};
ghost use Rattle.pc_word.specs.Exact.{IsExact};
ghost use Rattle.pc_cert.specs.models.HaltCause.{halt_cause};
ghost use Rattle.pc_cert.specs.Reading.{loop_of, start_of, source_at, operand_at, fact_at, opening_at, step_at};

use crate::certificate::{Fact, Opening, Source, Step, WindowOperand};
use crate::fields::{byte, half, word};
use crate::refusal::{Halt, Refusal};

#[tactic(auto, unfolding(crate::specs::Reading::source_at))]
fn source(bytes: &[u8]) -> Result<(Source, &[u8]), Halt>
    ensures { IsExact (λ x. (x.0, x.1.now)) halt_cause result (source_at bytes.now) }
{
    match bytes {
        [] => Err(Halt::Refused(Refusal::Short)),
        [0x00, rest @ ..] => {
            let (register, rest) = byte(rest)?;
            Ok((Source::Register(register), rest))
        }
        [0x01, rest @ ..] => {
            let (value, rest) = word(rest)?;
            Ok((Source::Literal(value), rest))
        }
        [_, ..] => Err(bad_fact(bytes)),
    }
}

#[tactic(auto, unfolding(crate::specs::Reading::operand_at))]
fn operand(bytes: &[u8]) -> Result<(WindowOperand, &[u8]), Halt>
    ensures { IsExact (λ x. (x.0, x.1.now)) halt_cause result (operand_at bytes.now) }
{
    match bytes {
        [] => Err(Halt::Refused(Refusal::Short)),
        [0x00, rest @ ..] => {
            let (parameter, rest) = half(rest)?;
            Ok((WindowOperand::Parameter(parameter), rest))
        }
        [0x01, rest @ ..] => {
            let (value, rest) = word(rest)?;
            Ok((WindowOperand::Literal(value), rest))
        }
        [_, ..] => Err(bad_fact(bytes)),
    }
}

/// The field that begins where `bytes` do is no part of a fact.
fn bad_fact(bytes: &[u8]) -> Halt
    ensures { result ≡ Halt.Refused (Refusal.BadFact (length bytes.now)) }
{
    Halt::Refused(Refusal::BadFact { left: bytes.len() })
}

/// The field that begins where `bytes` do is no step and no opening.
fn bad_step(bytes: &[u8]) -> Halt
    ensures { result ≡ Halt.Refused (Refusal.BadStep (length bytes.now)) }
{
    Halt::Refused(Refusal::BadStep { left: bytes.len() })
}

#[tactic(auto, unfolding(crate::specs::Reading::fact_at))]
pub fn fact(bytes: &[u8]) -> Result<(Fact, &[u8]), Halt>
    ensures { IsExact (λ x. (x.0, x.1.now)) halt_cause result (fact_at bytes.now) }
{
    let (source, rest) = source(bytes)?;
    let (operand, rest) = operand(rest)?;
    Ok((Fact { source, operand }, rest))
}

/// The loop that a number stands for.
fn loop_of(number: u16) -> Option<u16>
    ensures { result ≡ loop_of number }
{
    if number == 0xFFFF { None } else { Some(number) }
}

/// Whether a stub is entered, and the window, as a byte tells both.
fn start_of(byte: u8) -> Option<(bool, u8)>
    ensures { result ≡ start_of byte }
{
    if byte <= 8 {
        Some((false, byte))
    } else if byte < 16 || 24 < byte {
        None
    } else {
        Some((true, byte - 16))
    }
}

#[tactic(auto, unfolding(crate::specs::Reading::opening_at))]
pub fn opening(bytes: &[u8]) -> Result<(Opening, &[u8]), Halt>
    ensures { IsExact (λ x. (x.0, x.1.now)) halt_cause result (opening_at bytes.now) }
{
    let (first, rest) = byte(bytes)?;
    let Some((enters, window)) = start_of(first) else {
        return Err(bad_step(bytes));
    };
    let (inside, rest) = half(rest)?;
    let opening = Opening {
        enters,
        window,
        inside: loop_of(inside),
    };
    Ok((opening, rest))
}

#[tactic(auto, unfolding(crate::specs::Reading::step_at))]
pub fn step(bytes: &[u8]) -> Result<(Step, &[u8]), Halt>
    ensures { IsExact (λ x. (x.0, x.1.now)) halt_cause result (step_at bytes.now) }
{
    match bytes {
        [] => Err(Halt::Refused(Refusal::Short)),
        [0x01, rest @ ..] => {
            let (place, rest) = half(rest)?;
            Ok((Step::Bring { place }, rest))
        }
        [0x02, rest @ ..] => {
            let (branch, rest) = half(rest)?;
            let (on_yes, rest) = half(rest)?;
            let (on_no, rest) = half(rest)?;
            let step = Step::Join {
                branch,
                on_yes,
                on_no,
            };
            Ok((step, rest))
        }
        [0x03, rest @ ..] => {
            let (leaf, rest) = half(rest)?;
            Ok((Step::Open { leaf }, rest))
        }
        [0x04, rest @ ..] => {
            let (leaf, rest) = half(rest)?;
            Ok((Step::Enter { leaf }, rest))
        }
        [0x05, rest @ ..] => {
            let (copy, rest) = half(rest)?;
            let (place, rest) = half(rest)?;
            Ok((Step::Use { copy, place }, rest))
        }
        [_, ..] => Err(bad_step(bytes)),
    }
}
