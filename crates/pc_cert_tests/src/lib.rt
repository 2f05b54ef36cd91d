//! Tests of certificates: as bytes, of rows against fronts, of what steps make of windows, and of what
//! is left of these.
#![tactic(auto)]

#[cfg(test)]
mod arranging;
#[cfg(test)]
mod arriving;
#[cfg(test)]
mod beginning;
#[cfg(test)]
mod checking;
#[cfg(test)]
mod left;
#[cfg(test)]
mod rows;
#[cfg(test)]
mod settling;
#[cfg(test)]
mod shown;
#[cfg(test)]
mod tables;
#[cfg(test)]
mod texts;
