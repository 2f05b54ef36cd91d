//! What objects do, and whether two do the same.

use pc_machine::{Code, well_formed};
use pc_object::decode;
use pc_outside::SureSink;
use pc_vm::{Machine, Outcome, RunError};
use pc_word::{MOST_OBJECT, WordList};
use std::alloc::Global;
use std::test::Fail;

/// How many cycles a run may take. The objects of these tests take no more than a tenth of these, so one that has not
/// ended by then does something else.
const BUDGET: u64 = 20_000;

/// The bytes that a run may print.
const ROOM: usize = 4096;

/// The inputs on which objects are compared.
const INPUTS: [&[i32]; 6] = [
    &[],
    &[3, 1, -4],
    &[7, 2, 2, 9, 0, 5, -1, 8],
    &[-2, 6],
    &[1, -3],
    &[4, -1, 5, -2, 3],
];

/// The text that a run sent, and what it answered.
#[derive(Drop)]
struct Shown {
    text: Vec<u8>,
    answer: Result<Outcome, RunError>,
}

/// What a code shows on an input; `None` where it is not well formed.
fn run(alloc: Global, code: Code, input: &[i32]) -> Result<Option<Shown>, Fail> {
    let inputs = WordList::from_slice(alloc, input)?;
    match well_formed(&code) {
        None => {
            let mut machine = Machine::new(alloc, code, inputs)?;
            let mut out = SureSink::new(alloc, ROOM)?;
            let answer = machine.run(BUDGET, &mut out);
            let text = out.taken().to_vec(alloc)?;
            Ok(Some(Shown { text, answer }))
        }
        Some(_) => Ok(None),
    }
}

/// What the object of these bytes shows on an input; `None` where they are no object.
fn shown_on(alloc: Global, bytes: &[u8], input: &[i32]) -> Result<Option<Shown>, Fail> {
    if bytes.len() > MOST_OBJECT {
        return Ok(None);
    }
    let Ok(object) = decode(alloc, bytes) else {
        return Ok(None);
    };
    run(alloc, object.code, input)
}

/// Whether bytes are an object that shows something else on some input than that of other bytes.
pub(crate) fn does_otherwise(alloc: Global, bytes: &[u8], other: &[u8]) -> Result<bool, Fail> {
    for input in INPUTS {
        let (Some(one), Some(two)) = (
            shown_on(alloc, bytes, input)?,
            shown_on(alloc, other, input)?,
        ) else {
            return Ok(false);
        };
        if one.text != two.text || one.answer != two.answer {
            return Ok(true);
        }
    }
    Ok(false)
}
