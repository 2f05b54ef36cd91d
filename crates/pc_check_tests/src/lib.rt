//! Tests of certificates that are proposed for compiled sources: each is accepted, and neither it nor one that is proposed
//! anew is accepted for a changed object that does something else.
#![tactic(auto)]

#[cfg(test)]
mod changes;
#[cfg(test)]
mod compiling;
#[cfg(test)]
mod mutants;
#[cfg(test)]
mod parts;
#[cfg(test)]
mod running;
#[cfg(test)]
mod taken;
