//! The options that take a number, as a table.
ghost use Rattle.std.specs.Prelude.{◌≡◌, decimal, false};
ghost use Rattle.std.specs.Option.{IsSome};
ghost use Rattle.clap.specs.Walk.{one_of, rule_of};
ghost use Rattle.pc_command.specs.Matching.{matches_in};
ghost use Rattle.pc_command.specs.Arguments.{number_argument, optional_argument};
ghost use Rattle.pc_command.specs.Options.{number_found, number_in, number_option};
ghost use Rattle.pc_command.specs.Options.{ops_option, tests_option, mem_option, window_option, rows_option, cycles_option, trace_option, loop_option};

use clap::builder::ValueParser;
use clap::{Arg, ArgAction, ArgMatches};
use pc_word::{MOST_CYCLES, MOST_MEM, MOST_OPS, MOST_ROWS, MOST_SOURCE, MOST_TESTS, MOST_WINDOW};
use std::alloc::Global;

/// An option `--NAME N`: the numbers that it takes, and the number that it has where the words leave
/// it out.
#[derive(Clone, Copy)]
pub(crate) struct OptionLine<'a> {
    name: &'a str,
    least: u64,
    greatest: u64,
    default: u64,
    default_text: &'a str,
    ghost spelled: { default_text.now ≡ decimal default },
}

impl<'a> OptionLine<'a> {
    ghost use Rattle.pc_command.specs.models.Lines.{option_of};

    /// A line of the table. The default stands there as a number and as its text.
    fn new(name: &'a str, least: u64, greatest: u64, default: u64, default_text: &'a str) -> Self
        requires { default_text.now ≡ decimal default }
        ensures { option_of result ≡ number_option name.entry.now least greatest default }
    {
        OptionLine {
            name,
            least,
            greatest,
            default,
            default_text,
        }
    }

    /// The option as an argument of a command, which has its default where it is left out.
    pub(crate) fn argument(self, alloc: Global) -> Arg<'a>
        ensures rule { rule_of result ≡ number_argument (option_of self.entry) }
        ensures local { result.global ≡ false }
    {
        self.optional_argument(alloc)
            .default_value(self.default_text)
    }

    /// The option as an argument of a command, which has no number where it is left out.
    pub(crate) fn optional_argument(self, alloc: Global) -> Arg<'a>
        ensures rule { rule_of result ≡ optional_argument (option_of self.entry) }
        ensures local { result.global ≡ false }
    {
        Arg::new(alloc, self.name)
            .long(self.name)
            .action(ArgAction::Set)
            .value_parser(ValueParser::Unsigned(self.least, self.greatest))
    }

    /// The option's number in the matches.
    pub(crate) fn number_in(self, matches: &ArgMatches<'_>) -> u64
        requires { IsSome (number_found (option_of self) (matches_in matches.now)) }
        ensures { result ≡ number_in (option_of self.entry) (matches_in matches.now) }
    {
        matches.get_one(self.name).unwrap()
    }

    /// The option's number in the matches, if the words give one.
    pub(crate) fn number_found(self, matches: &ArgMatches<'_>) -> Option<u64>
        requires { IsSome (one_of self.name.now (matches_in matches.now)) → IsSome (number_found (option_of self) (matches_in matches.now)) }
        ensures { result ≡ number_found (option_of self.entry) (matches_in matches.now) }
    {
        matches.get_one(self.name)
    }
}

#[tactic(auto, using(crate::proofs::Lines::option_lines))]
impl<'a> OptionLine<'a> {
    ghost use Rattle.pc_command.specs.models.Lines.{option_of};

    /// How many items a row may have.
    pub(crate) fn ops() -> Self
        ensures { option_of result ≡ ops_option }
    {
        OptionLine::new("ops", 1, u64::from(MOST_OPS), 8, "8")
    }

    /// How many tests a row may have.
    pub(crate) fn tests() -> Self
        ensures { option_of result ≡ tests_option }
    {
        OptionLine::new("tests", 1, u64::from(MOST_TESTS), 3, "3")
    }

    /// How many loads and stores together a row may have.
    pub(crate) fn mem() -> Self
        ensures { option_of result ≡ mem_option }
    {
        OptionLine::new("mem", 1, u64::from(MOST_MEM), 2, "2")
    }

    /// How many turns of a loop a window may hold.
    pub(crate) fn window() -> Self
        ensures { option_of result ≡ window_option }
    {
        OptionLine::new("window", 1, u64::from(MOST_WINDOW), 4, "4")
    }

    /// How many rows the schedule of a window may have.
    pub(crate) fn rows() -> Self
        ensures { option_of result ≡ rows_option }
    {
        OptionLine::new("rows", 1, u64::from(MOST_ROWS), 256, "256")
    }

    /// How many cycles a run may take.
    pub(crate) fn cycles() -> Self
        ensures { option_of result ≡ cycles_option }
    {
        OptionLine::new("cycles", 1, MOST_CYCLES, 100_000_000, "100000000")
    }

    /// How many cycles are traced.
    pub(crate) fn trace() -> Self
        ensures { option_of result ≡ trace_option }
    {
        OptionLine::new("trace", 1, MOST_CYCLES, 0, "0")
    }

    /// The line of the source whose loops are explained. A source has at most one line more than it
    /// has bytes.
    pub(crate) fn source_line() -> Self
        ensures { option_of result ≡ loop_option }
    {
        OptionLine::new("loop", 1, MOST_SOURCE as u64 + 1, 0, "0")
    }
}
