//! What waits, and why, in words.
ghost use Rattle.std.specs.Prelude.{◌≡◌, Some};
ghost use Rattle.pc_explain.specs.Legends.{legend_in};
ghost use Rattle.pc_explain.specs.Waits.{kind_words, resource_words, obstacle_words};

use crate::legend::{ArrayWords, Legend};
use crate::words::place;
use pc_view::operator_words;
use pc_waiting::{Obstacle, Resource};
use pc_word::Item;
use std::fmt;

/// What waits, to be written: an item by what it does, or a test. Its names are not those of the state, and left out.
#[derive(Clone, Copy)]
pub struct KindWords<'a> {
    pub legend: &'a Legend,
    pub what: Option<Item>,
}

/// Why something waits, to be written: for what it reads, for what it may not pass, for a test above it, or for room.
#[derive(Clone, Copy)]
pub struct ObstacleWords<'a> {
    pub legend: &'a Legend,
    pub obstacle: Obstacle,
}

/// What a row has only so many of, in words.
pub fn resource_words(resource: Resource) -> &'static str
    ensures { result.now ≡ resource_words resource }
{
    match resource {
        Resource::Items => "items",
        Resource::Tests => "tests",
        Resource::Memory => "loads and stores",
    }
}

impl<'a> fmt::Display for KindWords<'a> {
    ghost output = { λ words. Some (kind_words (legend_in words.legend.now) words.what) };

    fn fmt<W: fmt::Write>(&self, f: &mut fmt::Formatter<W>) -> fmt::Result {
        let legend = self.legend;
        match self.what {
            None => write!(f, "test"),
            Some(Item::Bin { op, .. }) => {
                let op = operator_words(op);
                write!(f, "operator {op}")
            }
            Some(Item::Copy { .. }) => write!(f, "copy"),
            Some(Item::Load { array, .. }) => {
                let array = ArrayWords { legend, array };
                write!(f, "load of {array}")
            }
            Some(Item::Store { array, .. }) => {
                let array = ArrayWords { legend, array };
                write!(f, "store to {array}")
            }
            Some(Item::Print { .. }) => write!(f, "print"),
            Some(Item::Read { .. }) => write!(f, "read"),
            Some(Item::More { .. }) => write!(f, "more"),
        }
    }
}

impl<'a> fmt::Display for ObstacleWords<'a> {
    ghost output = { λ words. Some (obstacle_words (legend_in words.legend.now).lines words.obstacle) };

    fn fmt<W: fmt::Write>(&self, f: &mut fmt::Formatter<W>) -> fmt::Result {
        match self.obstacle {
            Obstacle::Needs { iteration, origin } => {
                let other = place(self.legend, iteration, origin);
                write!(f, "needs {other}")
            }
            Obstacle::Meets { iteration, origin } => {
                let other = place(self.legend, iteration, origin);
                write!(f, "may not pass {other}")
            }
            Obstacle::Undecided { iteration, origin } => {
                let test = place(self.legend, iteration, origin);
                write!(f, "stands below the test {test}")
            }
            Obstacle::NoRoom { resource } => {
                let resource = resource_words(resource);
                write!(f, "no room for {resource}")
            }
        }
    }
}
