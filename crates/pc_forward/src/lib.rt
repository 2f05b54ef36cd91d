//! A pass over the flow graph that lets values pass by memory: a load whose element was stored or loaded before is a copy.
#![tactic(auto)]

mod access;
mod forward;
mod forwarding;
mod trail;
mod walking;
mod ways;

pub use forward::Forward;
