//! The reader of notes.

ghost use Rattle.pc_word.specs.Exact.{IsExact};
ghost use Rattle.pc_assembly.specs.models.Causes.{halt_cause};
ghost use Rattle.pc_assembly.specs.Notes.{packed_reason, plain_reason, pipelined_reason, choice_here, loop_here, note_here};

use crate::bytes::{Class, after_run, unblank};
use crate::error::{Expected, Halt, unexpected};
use crate::spelling::{Mark, Word};
use crate::words::{is_alone, is_next, mark, number, word};
use pc_object::Note;

#[tactic(auto, unfolding(crate::specs::Notes::packed_reason))]
fn packed_reason(bytes: &[u8]) -> Result<(u8, &[u8]), Halt>
    ensures { IsExact (λ x. (x.0, x.1.now)) halt_cause result (packed_reason bytes.now) }
{
    let rest = after_run(Class::Letter, bytes);
    if is_next(Word::Rows, bytes) {
        return Ok((1, rest));
    }
    if is_next(Word::Live, bytes) {
        return Ok((2, rest));
    }
    if is_next(Word::Bytes, bytes) {
        return Ok((3, rest));
    }
    if is_next(Word::Window, bytes) {
        return Ok((4, rest));
    }
    Err(unexpected(bytes, Expected::Reason))
}

#[tactic(auto, unfolding(crate::specs::Notes::plain_reason))]
fn plain_reason(bytes: &[u8]) -> Result<(u8, &[u8]), Halt>
    ensures { IsExact (λ x. (x.0, x.1.now)) halt_cause result (plain_reason bytes.now) }
{
    let rest = after_run(Class::Letter, bytes);
    if is_next(Word::Rows, bytes) {
        return Ok((5, rest));
    }
    if is_next(Word::Live, bytes) {
        return Ok((6, rest));
    }
    if is_next(Word::Bytes, bytes) {
        return Ok((7, rest));
    }
    Err(unexpected(bytes, Expected::Reason))
}

#[tactic(auto, unfolding(crate::specs::Notes::pipelined_reason))]
fn pipelined_reason(bytes: &[u8]) -> Result<(u8, &[u8]), Halt>
    ensures { IsExact (λ x. (x.0, x.1.now)) halt_cause result (pipelined_reason bytes.now) }
{
    if is_next(Word::Rows, bytes) {
        return Ok((0, after_run(Class::Letter, bytes)));
    }
    Err(unexpected(bytes, Expected::Reason))
}

/// The form of a loop and what decided it.
#[tactic(auto, unfolding(crate::specs::Notes::choice_here))]
fn choice_here(bytes: &[u8]) -> Result<(u8, &[u8]), Halt>
    ensures { IsExact (λ x. (x.0, x.1.now)) halt_cause result (choice_here bytes.now) }
{
    let rest = after_run(Class::Letter, bytes);
    if is_next(Word::Pipelined, bytes) {
        let rest = mark(Mark::Comma, rest)?;
        return pipelined_reason(unblank(rest));
    }
    if is_next(Word::Packed, bytes) {
        let rest = mark(Mark::Comma, rest)?;
        return packed_reason(unblank(rest));
    }
    if is_next(Word::Plain, bytes) {
        let rest = mark(Mark::Comma, rest)?;
        return plain_reason(unblank(rest));
    }
    Err(unexpected(bytes, Expected::Form))
}

/// The word `loop`.
fn loop_here(bytes: &[u8]) -> Result<&[u8], Halt>
    ensures { IsExact (λ rest. rest.now) halt_cause result (loop_here bytes.now) }
{
    if is_alone(Word::Loop, bytes) {
        return Ok(after_run(Class::Name, bytes));
    }
    Err(unexpected(bytes, Expected::Word(Word::Loop)))
}

/// A note.
#[tactic(auto, unfolding(crate::specs::Notes::note_here))]
pub fn note_here(bytes: &[u8]) -> Result<(Note, &[u8]), Halt>
    ensures { IsExact (λ x. (x.0, x.1.now)) halt_cause result (note_here bytes.now) }
{
    let rest = loop_here(bytes)?;
    let (line, rest) = number(u32::MAX, Expected::Number, rest)?;
    let rest = mark(Mark::Colon, rest)?;
    let (choice, rest) = choice_here(unblank(rest))?;
    let (number_of, rest) = number(u32::MAX, Expected::Number, rest)?;
    let rest = word(Word::Of, rest)?;
    let (limit, rest) = number(u32::MAX, Expected::Number, rest)?;
    let note = Note {
        choice,
        line,
        number: number_of,
        limit,
    };
    Ok((note, rest))
}
