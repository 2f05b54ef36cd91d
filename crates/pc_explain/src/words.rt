//! Items and tests in words.
ghost use Rattle.std.specs.Prelude.{◌≡◌, ◌++◌, OnOk, Some, slice_get, string_bytes};
ghost use Rattle.pc_explain.specs.Legends.{legend_in};
ghost use Rattle.pc_explain.specs.Naming.{naming_in};
ghost use Rattle.pc_explain.specs.Words.{operand_words, item_words, home_words, place_words, no_loop_words};

use crate::legend::{ArrayWords, Legend, VariableWords};
use crate::naming::{StateNaming, named};
use pc_view::operator_words;
use pc_window::Home;
use pc_word::{Item, Operand};
use std::alloc::AllocError;
use std::fmt;

/// An operand of a state that is to be written: a name, or a literal in decimal digits.
#[derive(Clone, Copy)]
pub struct OperandWords<'a> {
    pub naming: StateNaming<'a>,
    pub operand: Operand,
}

/// An item of a state that is to be written: what it writes or does, and the operands that it reads.
#[derive(Clone, Copy)]
pub struct ItemWords<'a> {
    pub naming: StateNaming<'a>,
    pub item: Item,
}

/// The value of a variable that is to be written.
#[derive(Clone, Copy)]
pub struct HomeWords<'a> {
    pub naming: StateNaming<'a>,
    pub home: Home,
}

/// Where an item or test comes from, which is to be written: its iteration, and the line of the source, if it is known.
#[derive(Clone, Copy)]
pub struct PlaceWords {
    pub iteration: u32,
    pub line: Option<u32>,
}

/// An operand that is to be written.
pub fn shown<'a>(naming: StateNaming<'a>, operand: Operand) -> OperandWords<'a>
    ensures { result ≡ record { naming = naming.entry; operand = operand } }
{
    OperandWords { naming, operand }
}

/// Where an item or test of an iteration comes from, by the node of the flow graph.
pub fn place(legend: &Legend, iteration: u32, origin: u32) -> PlaceWords
    ensures { result ≡ record { iteration = iteration; line = slice_get legend.now.lines origin } }
{
    let line = legend.line(origin);
    PlaceWords { iteration, line }
}

impl<'a> fmt::Display for OperandWords<'a> {
    ghost output = { λ words. Some (operand_words (naming_in words.naming) words.operand) };

    fn fmt<W: fmt::Write>(&self, f: &mut fmt::Formatter<W>) -> fmt::Result {
        match self.operand {
            Operand::Name(name) => {
                let name = named(self.naming, name);
                write!(f, "{name}")
            }
            Operand::Lit(value) => write!(f, "{value}"),
        }
    }
}

impl<'a> fmt::Display for ItemWords<'a> {
    ghost output = { λ words. Some (item_words (naming_in words.naming) words.item) };

    fn fmt<W: fmt::Write>(&self, f: &mut fmt::Formatter<W>) -> fmt::Result {
        let (naming, legend) = (self.naming, self.naming.legend);
        match self.item {
            Item::Bin {
                op,
                dest,
                left,
                right,
            } => {
                let (dest, op) = (named(naming, dest), operator_words(op));
                let (left, right) = (shown(naming, left), shown(naming, right));
                write!(f, "{dest} = {left} {op} {right}")
            }
            Item::Copy { dest, from } => {
                let (dest, from) = (named(naming, dest), shown(naming, from));
                write!(f, "{dest} = {from}")
            }
            Item::Load { dest, array, index } => {
                let (dest, index) = (named(naming, dest), shown(naming, index));
                let array = ArrayWords { legend, array };
                write!(f, "{dest} = {array}[{index}]")
            }
            Item::Store {
                array,
                index,
                value,
            } => {
                let (index, value) = (shown(naming, index), shown(naming, value));
                let array = ArrayWords { legend, array };
                write!(f, "{array}[{index}] = {value}")
            }
            Item::Print { value } => {
                let value = shown(naming, value);
                write!(f, "print({value})")
            }
            Item::Read { dest } => {
                let dest = named(naming, dest);
                write!(f, "{dest} = read()")
            }
            Item::More { dest } => {
                let dest = named(naming, dest);
                write!(f, "{dest} = more()")
            }
        }
    }
}

impl<'a> fmt::Display for HomeWords<'a> {
    ghost output = { λ words. Some (home_words (naming_in words.naming) words.home) };

    #[tactic(auto, unfolding(crate::specs::Words::home_words))]
    fn fmt<W: fmt::Write>(&self, f: &mut fmt::Formatter<W>) -> fmt::Result {
        let Home { variable, value } = self.home;
        let legend = self.naming.legend;
        let variable = VariableWords { legend, variable };
        let value = shown(self.naming, value);
        write!(f, "{variable} = {value}")
    }
}

impl fmt::Display for PlaceWords {
    ghost output = { λ words. Some (place_words words.iteration words.line) };

    fn fmt<W: fmt::Write>(&self, f: &mut fmt::Formatter<W>) -> fmt::Result {
        let iteration = self.iteration;
        match self.line {
            None => write!(f, "+{iteration}"),
            Some(line) => write!(f, "+{iteration} line {line}"),
        }
    }
}

/// Appends to a text that there is no innermost loop, or none at the line that is asked for.
pub fn push_no_loop_words(text: &mut String, asked: Option<u32>) -> Result<(), AllocError>
    ensures { OnOk result (string_bytes text.new ≡ string_bytes text.old ++ no_loop_words asked) }
{
    match asked {
        None => text.push_str("no innermost loop"),
        Some(line) => write!(text, "no innermost loop at line {line}"),
    }
}
