//! What the words ask of the profiler.
ghost use Rattle.std.specs.Prelude.{◌≡◌, IfOk, IfSome, ok_or, option_map};
ghost use Rattle.pc_word.specs.Exact.{IsExact};
ghost use Rattle.pc_word.specs.Ranges.{AreCycles};
ghost use Rattle.pc_command.specs.Laws.{AreStatMatches};
ghost use Rattle.pc_command.specs.Matching.{matches_in};
ghost use Rattle.pc_command.specs.Options.{cycles_option, number_in};
ghost use Rattle.pc_command.specs.Requests.{command_cause, mode_in, mode_of, stat_command_of, stat_request, stat_request_in};
ghost use Rattle.pc_command.specs.Words.{spelled};

use crate::CommandError;
use crate::arguments::{flag_in, matches_of, stat_app, word_in};
use crate::number_option::OptionLine;
use clap::ArgMatches;
use std::alloc::Global;

/// The text in which the profiler tells what a run cost.
#[derive(Clone, Copy, Debug, PartialEq, Eq)]
pub enum StatMode {
    /// The summary, in lines.
    Summary,
    /// The listing of the object, each row with how often it ran.
    Rows,
    /// At most so many cycles from the first, a line each.
    Trace { cycles: u64 },
    /// The graph of the object in the language DOT, each row shaded by how often it ran.
    Dot,
    /// The counts of the summary, of the rows and of their leaves, as JSON.
    Json,
}

/// What the profiler is to do.
#[derive(Clone, Copy, Debug, PartialEq, Eq)]
pub struct StatCommand<'a> {
    /// The name of the file that holds the object.
    pub object: &'a str,
    /// How many cycles the run may take.
    pub cycles: u64,
    /// The text that is asked for.
    pub mode: StatMode,
}

/// Reads the words after the profiler's own name:
/// `OBJ [--cycles N] [--rows | --trace N | --dot | --json]`.
///
/// What `clap` takes is taken: `--cycles=5`, `+8` and leading zeros too. Words that ask for two texts
/// are no command.
pub fn stat_command<'a>(alloc: Global, words: &'a [String]) -> Result<StatCommand<'a>, CommandError>
    ensures exact { IsExact stat_request command_cause result
        (ok_or (stat_command_of (spelled words.entry.now)) CommandError.NoCommand) }
    ensures cycles { IfOk result (λ command. AreCycles command.cycles) }
{
    let matches = matches_of(stat_app(alloc)?, words)?;
    command_in(&matches).ok_or(CommandError::NoCommand)
}

/// What the matches ask, where they ask for one text.
#[tactic(auto, unfolding(crate::specs::Requests::stat_request_in))]
fn command_in<'a>(matches: &ArgMatches<'a>) -> Option<StatCommand<'a>>
    requires { AreStatMatches (matches_in matches.now) }
    ensures value { option_map stat_request result ≡ stat_request_in (matches_in matches.now) }
    ensures cycles { IfSome result (λ command. AreCycles command.cycles) }
{
    let mode = mode_in(matches)?;
    Some(StatCommand {
        object: word_in(matches, "OBJ"),
        cycles: cycles_in(matches),
        mode,
    })
}

/// How many cycles the matches give the run.
fn cycles_in(matches: &ArgMatches<'_>) -> u64
    requires { AreStatMatches (matches_in matches.now) }
    ensures value { result ≡ number_in cycles_option (matches_in matches.now) }
    ensures range { AreCycles result }
{
    OptionLine::cycles().number_in(matches)
}

/// The text that the matches ask for, if it is one.
fn mode_in(matches: &ArgMatches<'_>) -> Option<StatMode>
    requires { AreStatMatches (matches_in matches.now) }
    ensures { result ≡ mode_in (matches_in matches.now) }
{
    let rows = flag_in(matches, "rows");
    let trace = OptionLine::trace().number_found(matches);
    let dot = flag_in(matches, "dot");
    let json = flag_in(matches, "json");
    mode_of(rows, trace, dot, json)
}

/// The text that these words ask for, if it is one.
fn mode_of(rows: bool, trace: Option<u64>, dot: bool, json: bool) -> Option<StatMode>
    ensures { result ≡ mode_of rows trace dot json }
{
    match (rows, trace, dot, json) {
        (false, None, false, false) => Some(StatMode::Summary),
        (true, None, false, false) => Some(StatMode::Rows),
        (false, Some(cycles), false, false) => Some(StatMode::Trace { cycles }),
        (false, None, true, false) => Some(StatMode::Dot),
        (false, None, false, true) => Some(StatMode::Json),
        _ => None,
    }
}
