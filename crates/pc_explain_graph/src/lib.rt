//! Explanations of loops as a graph in the language DOT.
#![tactic(auto)]

mod cells;
mod edges;
mod graph;
mod laws;

pub use graph::explanation_graph;
pub use laws::law_of_graphs;
