//! Changed objects, one for each seed.

use crate::changes::{Change, changed};
use crate::parts::{behind_part, parts_of};
use std::alloc::{AllocError, Global};

/// A generator of numbers, linear and congruent.
#[derive(Clone, Copy, Debug)]
struct Numbers {
    state: u64,
}

impl Numbers {
    /// A number below another one, or 0 where that is 0.
    fn below(&mut self, most: usize) -> usize {
        self.state = self
            .state
            .wrapping_mul(6364136223846793005)
            .wrapping_add(1442695040888963407);
        let number = (self.state >> 33) as usize;
        number.checked_rem(most).unwrap_or(0)
    }
}

/// One of these, or 0 where there is none.
fn one_of(numbers: &mut Numbers, places: &[usize]) -> usize {
    let number = numbers.below(places.len());
    places.get(number).copied().unwrap_or(0)
}

/// A change of a part of so many bytes, in an object whose parts begin at these places.
fn change_of(numbers: &mut Numbers, size: usize, places: &[usize]) -> Change {
    match numbers.below(8) {
        0 => Change::Dropped,
        1 => Change::Doubled,
        2 => Change::Moved {
            to: one_of(numbers, places),
        },
        3 => Change::Turned,
        _ => Change::Bit {
            byte: numbers.below(size),
            bit: u8::try_from(numbers.below(4)).unwrap_or(0),
        },
    }
}

/// The bytes of an object, changed at one place.
pub(crate) fn mutant(alloc: Global, bytes: &[u8], seed: u64) -> Result<Vec<u8>, AllocError> {
    let places = parts_of(alloc, bytes)?;
    let mut numbers = Numbers { state: seed };
    let _ = numbers.below(1);
    let at = one_of(&mut numbers, places.as_slice());
    let size = behind_part(bytes, at).saturating_sub(at);
    let change = change_of(&mut numbers, size, places.as_slice());
    changed(alloc, bytes, at, change)
}
