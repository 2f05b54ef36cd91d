//! Tests of the machine: codes, objects, the simulator, and what its runs cost.
#![tactic(auto)]

#[cfg(test)]
mod cost;
#[cfg(test)]
mod count;
#[cfg(test)]
mod machine;
#[cfg(test)]
mod object;
#[cfg(test)]
mod trace;
#[cfg(test)]
mod vm;
