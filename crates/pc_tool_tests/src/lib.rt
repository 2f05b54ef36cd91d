//! Tests of both programs over an outside in memory: each status with its line, what objects do, what is reported, and
//! passes.
#![tactic(auto)]

#[cfg(test)]
mod bench;
#[cfg(test)]
mod compiler;
#[cfg(test)]
mod cutting;
#[cfg(test)]
mod failures;
#[cfg(test)]
mod functions;
#[cfg(test)]
mod passes;
#[cfg(test)]
mod programs;
#[cfg(test)]
mod schedules;
#[cfg(test)]
mod simulator;
