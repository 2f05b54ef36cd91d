//! Objects as text: a listing that draws each row as the tree that it is, and the graph of the rows in the language DOT.
#![tactic(auto)]

mod counts;
mod data;
mod graph;
mod hundredths;
mod laws;
mod leading;
mod listing;
mod rows;
mod tally;
mod words;

pub use graph::{graph_text, tallied_graph_text};
pub use hundredths::{Hundredths, part_of};
pub use laws::{laws_of_graphs, laws_of_leading_rows, laws_of_listings};
pub use listing::{listing_text, row_text, tallied_listing_text};
pub use tally::Tally;
pub use words::operator_words;
