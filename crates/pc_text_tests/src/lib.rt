//! Tests of what the programs read and write: the outside, words, lines, files and texts.
#![tactic(auto)]

#[cfg(test)]
mod command;
#[cfg(test)]
mod driver;
#[cfg(test)]
mod fault_lines;
#[cfg(test)]
mod faults;
#[cfg(test)]
mod outside;
#[cfg(test)]
mod profiler;
#[cfg(test)]
mod report;
#[cfg(test)]
mod view;
#[cfg(test)]
mod viewer;
#[cfg(test)]
mod words;
