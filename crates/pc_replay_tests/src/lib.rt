//! Tests of steps of windows: filling against single moves, for regions and for programs; plain windows against shared ones;
//! what is kept once of a shared one; and a loop's windows against those that were worked out by hand.
#![tactic(auto)]

#[cfg(test)]
mod both_ways;
#[cfg(test)]
mod bounds;
#[cfg(test)]
mod comparing;
#[cfg(test)]
mod copying;
#[cfg(test)]
mod following;
#[cfg(test)]
mod leaves;
#[cfg(test)]
mod programs;
#[cfg(test)]
mod replay;
#[cfg(test)]
mod sharing;
#[cfg(test)]
mod sources;
#[cfg(test)]
mod steps;
#[cfg(test)]
mod tables;
#[cfg(test)]
mod worked;
