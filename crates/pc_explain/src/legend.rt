//! What the parts of a flow graph are in the source.
ghost use Rattle.std.specs.Prelude.{◌≡◌, Some, option_map, string_bytes, slice_get};
ghost use Rattle.pc_explain.specs.Legends.{legend_in, array_words, variable_words};

use pc_lines::LineList;
use pc_names::SourceNames;
use std::fmt;

/// What the parts of a flow graph are in the source that it comes from.
#[derive(Debug, Drop)]
pub struct Legend {
    /// The line of each node, by its number.
    pub lines: LineList,
    /// The names of the scalars and the arrays, by their numbers.
    pub names: SourceNames,
}

impl Legend {
    /// The line of a node, if it is known.
    pub fn line(&self, node: u32) -> Option<u32>
        ensures { result ≡ slice_get self.now.lines node }
    {
        self.lines.get(node as usize).copied()
    }
}

/// An array that is to be written: by its name, or by its number where it has none.
#[derive(Clone, Copy)]
pub(crate) struct ArrayWords<'a> {
    pub legend: &'a Legend,
    pub array: u8,
}

/// A variable of the flow graph that is to be written: by its name, where it is a scalar of the source, or by its number.
#[derive(Clone, Copy)]
pub(crate) struct VariableWords<'a> {
    pub legend: &'a Legend,
    pub variable: u32,
}

impl<'a> fmt::Display for ArrayWords<'a> {
    ghost output = { λ words. Some (array_words (legend_in words.legend.now) words.array) };

    fn fmt<W: fmt::Write>(&self, f: &mut fmt::Formatter<W>) -> fmt::Result {
        let array = self.array;
        match self.legend.names.arrays.get(array as usize) {
            Some(name) => write!(f, "{name}"),
            None => write!(f, "a{array}"),
        }
    }
}

impl<'a> fmt::Display for VariableWords<'a> {
    ghost output = { λ words. Some (variable_words (legend_in words.legend.now) words.variable) };

    fn fmt<W: fmt::Write>(&self, f: &mut fmt::Formatter<W>) -> fmt::Result {
        let variable = self.variable;
        match self.legend.names.scalars.get(variable as usize) {
            Some(name) => write!(f, "{name}"),
            None => write!(f, "v{variable}"),
        }
    }
}
