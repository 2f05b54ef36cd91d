//! How many phases each loop gets.
use crate::phases::MOST_PHASES;
use std::alloc::{AllocError, Global};

/// How many numbers of phases in a row are tried in vain for a loop before it is given up.
const MOST_MISSES: u8 = 3;

/// How many phases each loop has, and how many rows of copies it keeps with them.
#[derive(Drop)]
pub(crate) struct Choice {
    pub(crate) phases: Vec<u8>,
    kept: Vec<u32>,
    /// How many phases are tried next for each loop.
    next: Vec<u8>,
    /// How many numbers of phases in a row were tried in vain for each loop.
    misses: Vec<u8>,
    /// Whether rows were made with these numbers of phases, all of them at once.
    pub(crate) is_made: bool,
    /// Whether fewer phases are tried than were at first.
    is_lowered: bool,
}

/// Whether a loop that kept so many rows of copies with some phases keeps at most half as many for each turn with other phases.
fn halves(phases: u8, kept: u32, trial: u8, left: u32) -> bool {
    let before = (kept as u64) * (trial as u64);
    let after = (left as u64) * (phases as u64) * 2;
    after <= before
}

/// So many numbers of one phase.
pub(crate) fn one_phase(alloc: Global, loops: usize) -> Result<Vec<u8>, AllocError> {
    let mut phases = Vec::new(alloc);
    for _number in 0..loops {
        phases.push(1)?;
    }
    Ok(phases)
}

/// The most phases of a loop among these.
pub(crate) fn most_phases(trial: &[u8]) -> u8 {
    let mut most = 1;
    for phases in trial {
        most = most.max(*phases);
    }
    most
}

impl Choice {
    /// Loops in one phase that keep so many rows of copies, and for which so many phases are tried next, but at most
    /// this many.
    pub(crate) fn of_one_phase(
        alloc: Global,
        kept: &[u32],
        called_for: &[u8],
        most: u8,
    ) -> Result<Choice, AllocError> {
        let mut next = Vec::new(alloc);
        let mut misses = Vec::new(alloc);
        for number in 0..kept.len() {
            next.push(
                called_for
                    .get(number)
                    .copied()
                    .unwrap_or(2)
                    .min(most)
                    .max(2),
            )?;
            misses.push(0)?;
        }
        Ok(Choice {
            phases: one_phase(alloc, kept.len())?,
            kept: Vec::from_slice(alloc, kept)?,
            next,
            misses,
            is_made: true,
            is_lowered: false,
        })
    }

    /// Whether a loop keeps a row of copies, and is not given up.
    fn is_open(&self, number: usize) -> bool {
        let kept = self.kept.get(number).copied().unwrap_or(0);
        let next = self.next.get(number).copied().unwrap_or(u8::MAX);
        let misses = self.misses.get(number).copied().unwrap_or(0);
        kept > 0 && next <= MOST_PHASES && misses < MOST_MISSES
    }

    /// Whether no more phases are to be tried for any loop.
    pub(crate) fn is_done(&self) -> bool {
        for number in 0..self.kept.len() {
            if self.is_open(number) {
                return false;
            }
        }
        true
    }

    /// Where no rows could be made with the phases that were tried first: has two be tried next of each loop for which
    /// there were more; whether there is such a loop.
    pub(crate) fn lowers(&mut self) -> bool {
        let mut some = false;
        if self.is_lowered {
            return false;
        }
        self.is_lowered = true;
        for number in 0..self.next.len() {
            if let Some(next) = self.next.get_mut(number) {
                some = *next > 2 || some;
                *next = 2;
            }
        }
        some
    }

    /// The phases of loops, with those that are tried next of each for which more are to be tried.
    pub(crate) fn trial(&self, alloc: Global) -> Result<Vec<u8>, AllocError> {
        let mut trial = Vec::new(alloc);
        for number in 0..self.phases.len() {
            let known = self.phases[number];
            let next = self.next.get(number).copied().unwrap_or(known);
            trial.push(if self.is_open(number) { next } else { known })?;
        }
        Ok(trial)
    }

    /// Takes so many phases for a loop, if it keeps at most half of its rows of copies with them; whether it does.
    fn learns_of(&mut self, number: usize, trial: u8, left: u32) -> bool {
        let (Some(phases), Some(kept), Some(next), Some(misses)) = (
            self.phases.get_mut(number),
            self.kept.get_mut(number),
            self.next.get_mut(number),
            self.misses.get_mut(number),
        ) else {
            return false;
        };
        *next = trial.saturating_add(1);
        if !halves(*phases, *kept, trial, left) {
            *misses = misses.saturating_add(1);
            return false;
        }
        *phases = trial;
        *kept = left;
        *misses = 0;
        true
    }

    /// Takes so many phases for each loop for which they were tried, and which keeps at most half of its rows of
    /// copies with them, and so many are left; whether each of these does.
    pub(crate) fn learns(&mut self, trial: &[u8], left: &[u32]) -> bool {
        let mut some = false;
        let mut all = true;
        for (number, left) in left.iter().enumerate() {
            if self.is_open(number) {
                let phases = trial.get(number).copied().unwrap_or(1);
                if self.learns_of(number, phases, *left) {
                    some = true;
                } else {
                    all = false;
                }
            }
        }
        if some {
            self.is_made = all;
        }
        all
    }
}
