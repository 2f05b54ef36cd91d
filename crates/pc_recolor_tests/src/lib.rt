//! Tests of arenas and of registers chosen anew.
#![tactic(auto)]

#[cfg(test)]
mod arena;
#[cfg(test)]
mod recolor;
#[cfg(test)]
mod refusals;
