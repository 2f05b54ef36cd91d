//! Tests of the front end and of the words, lists and samples beside it: texts become tokens, trees and
//! checked programs.
#![tactic(auto)]

#[cfg(test)]
mod check;
#[cfg(test)]
mod item;
#[cfg(test)]
mod lexer;
#[cfg(test)]
mod parser;
#[cfg(test)]
mod sample;
#[cfg(test)]
mod short_lists;
#[cfg(test)]
mod sources;
#[cfg(test)]
mod unit;
#[cfg(test)]
mod word;
