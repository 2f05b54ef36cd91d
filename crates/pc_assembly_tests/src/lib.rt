//! Tests of listings that are read back, and of the assembler's top call.
#![tactic(auto)]

#[cfg(test)]
mod assembler;
#[cfg(test)]
mod names;
#[cfg(test)]
mod objects;
#[cfg(test)]
mod refusals;
#[cfg(test)]
mod room;
