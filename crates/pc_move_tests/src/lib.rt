//! Tests of what moves the items and tests of a window: filling, what is brought by its place, and the
//! single moves.
#![tactic(auto)]

#[cfg(test)]
mod bring;
#[cfg(test)]
mod fill;
#[cfg(test)]
mod movecj;
#[cfg(test)]
mod moveop;
#[cfg(test)]
mod tables;
#[cfg(test)]
mod unify;
#[cfg(test)]
mod waiting;
