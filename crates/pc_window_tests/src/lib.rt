//! Tests of windows: of forms, of opening, rebasing, unwinding and cutting, of keys, and of the search for
//! the automaton of a region.
#![tactic(auto)]

#[cfg(test)]
mod automaton;
#[cfg(test)]
mod canon;
#[cfg(test)]
mod linear;
#[cfg(test)]
mod pattern;
#[cfg(test)]
mod rebase;
#[cfg(test)]
mod renumber;
#[cfg(test)]
mod sums;
#[cfg(test)]
mod tables;
#[cfg(test)]
mod unwind;
#[cfg(test)]
mod window;
