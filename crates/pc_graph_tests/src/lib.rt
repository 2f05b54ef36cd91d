//! Tests of the flow graph: of lowering, of liveness, of the passes, and of cutting into regions.
#![tactic(auto)]

#[cfg(test)]
mod flow;
#[cfg(test)]
mod forward;
#[cfg(test)]
mod graphs;
#[cfg(test)]
mod live;
#[cfg(test)]
mod lower;
#[cfg(test)]
mod pass;
#[cfg(test)]
mod ranges;
#[cfg(test)]
mod regions;
#[cfg(test)]
mod scalar;
