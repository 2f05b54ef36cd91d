//! Tests of the way from automata to rows: copies, registers, the choice of forms, and tightening.
#![tactic(auto)]

#[cfg(test)]
mod assign;
#[cfg(test)]
mod choose;
#[cfg(test)]
mod copies;
#[cfg(test)]
mod tighten;
